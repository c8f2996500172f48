// A debit over T=0 with characters damaged at every place of the exchange, beside the direct card.
use apdu::{Refusal, Status};
use apps::Purse;
use link::{DirectCard, Link};
use std::process::Abort;
use std::test::Fail;
use t0::{Settings, Style};
use t0link::T0Link;
use wire::{MarkedLine, Record, Traced};

const CREDIT: &[u8] = b"\x80\x52\x00\x00\x04\x00\x00\x01\xF4\x00";

const DEBIT: &[u8] = b"\x80\x54\x00\x00\x04\x00\x00\x00\x64\x04";

const BALANCE: &[u8] = b"\x80\x50\x00\x00\x00";

const BLANK: Traced = Traced {
    by_card: false,
    byte: 0,
    damaged: false,
};

// What a turn gave, and its answer buffer.
type Gave = (Result<(usize, Status), Refusal>, [u8; 256]);

fn over_t0(link: &mut T0Link<Purse, MarkedLine>, command: &[u8]) -> Gave {
    let mut answer = [0u8; 256];
    let mut places = [BLANK; 8];
    let mut trace = Record::new(&mut places);
    (link.send(command, &mut answer, &mut trace), answer)
}

fn directly(card: &mut DirectCard<Purse>, command: &[u8]) -> Gave {
    let mut answer = [0u8; 256];
    (card.send(command, &mut answer), answer)
}

// A credit of 500, a debit of 100 and the balance, over T=0 with these positions damaged and on the direct card told the turn
// of the loss: equal turn by turn.
fn compare(
    rt: &impl Abort,
    waits: u8,
    style: Style,
    marks: &[u16],
    told: Option<u32>,
) -> Result<(), Fail> {
    let Ok(settings) = Settings::new(waits, style) else {
        return Err(Fail::new("the settings lie within their limits"));
    };
    let Ok(line) = MarkedLine::new(marks) else {
        return Err(Fail::new("the positions rise"));
    };
    let mut link = T0Link::new(settings, Purse::new(), line);
    let mut card = DirectCard::new(Purse::new(), told);
    assert_eq!(rt; over_t0(&mut link, CREDIT), directly(&mut card, CREDIT));
    assert_eq!(rt; over_t0(&mut link, DEBIT), directly(&mut card, DEBIT));
    assert_eq!(rt; over_t0(&mut link, BALANCE), directly(&mut card, BALANCE));
    let (malformed, _) = over_t0(&mut link, b"\x80\x50");
    assert_eq!(rt; malformed, Err(Refusal::Malformed));
    Ok(())
}

// One to three damages running never show, wherever they fall. Without waits and with data moved whole the credit takes
// 5 + 1 + 4 + 2 characters and, to fetch its answer, 5 + 1 + 4 + 2, and so does the debit.
#[test]
fn up_to_three_damages_never_show(rt: HostRuntime) -> Result<(), Fail> {
    for k in 0..60u16 {
        compare(&rt, 0, Style::Whole, &[k], None)?;
        compare(&rt, 0, Style::Whole, &[k, k + 1, k + 2], None)?;
        compare(&rt, 0, Style::Bytewise, &[k, k + 2, k + 3, k + 4], None)?;
        compare(&rt, 3, Style::Bytewise, &[k, k + 1], None)?;
    }
    Ok(())
}

// Four damages running lose the link in the turn that they fall into: characters 0 to 23 are the credit's, 24 to 47 the debit's.
#[test]
fn four_damages_lose_the_turn(rt: HostRuntime) -> Result<(), Fail> {
    for k in 0..48u16 {
        let told = if k < 24 { 0 } else { 1 };
        compare(&rt, 0, Style::Whole, &[k, k + 1, k + 2, k + 3], Some(told))?;
    }
    Ok(())
}
