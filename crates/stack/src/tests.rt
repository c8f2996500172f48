use apdu::{Application, Refusal, Status};
use apps::{Entry, Files, Purse};
use link::{DirectCard, Link};
use std::test::Fail;
use t0::{Settings, Style};
use t0link::T0Link;
use wire::{MarkedLine, Record, Traced};

// SW1 and SW2 of the status, or the refusal.
fn outcome(r: Result<(usize, Status), Refusal>) -> Result<[u8; 2], Refusal> {
    let (_, status) = r?;
    Ok([status.sw1(), status.sw2()])
}

// The first four bytes of an answer buffer as a number.
fn front(answer: &[u8; 256]) -> u32 {
    u32::from_be_bytes([answer[0], answer[1], answer[2], answer[3]])
}

#[test]
fn file_is_selected_and_read(rt: HostRuntime) -> Result<(), Fail> {
    let table = [Entry {
        id: 0x2f01,
        start: 0,
        length: 2,
    }];
    let Ok(files) = Files::new(&table, b"AB") else {
        return Err(Fail::new("the table lies within its limits"));
    };
    let mut card = DirectCard::new(files, None);
    let mut answer = [0xEEu8; 256];
    let mut short = [0u8; 255];
    assert_eq!(rt;
        outcome(card.send(b"\x00\xB0\x00\x00\x00", &mut answer)),
        Ok([0x69, 0x86])
    );
    assert_eq!(rt;
        outcome(card.send(b"\x00\xA4\x00\x00\x02\x2F\x01\x04", &mut answer)),
        Ok([0x90, 0x00])
    );
    assert_eq!(rt; front(&answer), 0x6F088002);
    assert_eq!(rt; answer[4], 0xEE);
    assert_eq!(rt;
        outcome(card.send(b"\x00\xB0\x00\x00\x00", &mut answer)),
        Ok([0x90, 0x00])
    );
    assert_eq!(rt; front(&answer), 0x41428002);
    assert_eq!(rt;
        outcome(card.send(b"\x00\xB0\x00\x00\x00", &mut short)),
        Err(Refusal::Room)
    );
    assert!(rt; card.reset().is_ok());
    assert_eq!(rt;
        outcome(card.send(b"\x00\xB0\x00\x00\x00", &mut answer)),
        Ok([0x69, 0x86])
    );
    Ok(())
}

#[test]
fn purse_is_debited_once_up_to_the_loss(rt: HostRuntime) {
    let mut card = DirectCard::new(Purse::new(), Some(3));
    let mut answer = [0u8; 256];
    assert_eq!(rt;
        outcome(card.send(b"\x80\x52\x00\x00\x04\x00\x00\x01\xF4\x00", &mut answer)),
        Ok([0x90, 0x00])
    );
    assert_eq!(rt; front(&answer), 500);
    assert_eq!(rt;
        outcome(card.send(b"\x80\x54\x00\x00", &mut answer)),
        Ok([0x67, 0x00])
    );
    assert_eq!(rt;
        outcome(card.send(b"\x80", &mut answer)),
        Err(Refusal::Malformed)
    );
    assert_eq!(rt;
        outcome(card.send(b"\x80\x54\x00\x00\x04\x00\x00\x00\x01\x00", &mut answer)),
        Err(Refusal::Lost)
    );
    assert_eq!(rt;
        outcome(card.send(b"\xFF\x54\x00\x00", &mut answer)),
        Err(Refusal::Reserved)
    );
    assert!(rt; card.reset().is_err());
    assert_eq!(rt;
        outcome(card.send(b"\x80\x50\x00\x00\x04", &mut answer)),
        Err(Refusal::Lost)
    );
    assert_eq!(rt; front(&answer), 500);
}

// A purse behind a T=0 link over a line with these positions damaged: credit 500, debit 500, debit 1.
#[test]
fn purse_over_t0_is_debited_once(rt: HostRuntime) -> Result<(), Fail> {
    let Ok(settings) = Settings::new(2, Style::Bytewise) else {
        return Err(Fail::new("two waits lie within the limits"));
    };
    let Ok(line) = MarkedLine::new(&[0, 7, 8, 9, 40, 60]) else {
        return Err(Fail::new("the positions rise"));
    };
    let mut link = T0Link::new(settings, Purse::new(), line);
    let mut answer = [0u8; 256];
    let mut memory = [Traced {
        by_card: false,
        byte: 0,
        damaged: false,
    }; 400];
    let mut trace = Record::new(&mut memory);
    assert_eq!(rt;
        outcome(link.send(
            b"\x80\x52\x00\x00\x04\x00\x00\x01\xF4\x00",
            &mut answer,
            &mut trace,
        )),
        Ok([0x90, 0x00])
    );
    assert_eq!(rt; front(&answer), 500);
    assert_eq!(rt;
        outcome(link.send(
            b"\x80\x54\x00\x00\x04\x00\x00\x01\xF4\x00",
            &mut answer,
            &mut trace,
        )),
        Ok([0x90, 0x00])
    );
    assert_eq!(rt; front(&answer), 0);
    assert_eq!(rt;
        outcome(link.send(
            b"\x80\x54\x00\x00\x04\x00\x00\x00\x01\x00",
            &mut answer,
            &mut trace,
        )),
        Ok([0x69, 0x85])
    );
    assert!(rt; link.reset(&mut trace).is_ok());
    Ok(())
}
