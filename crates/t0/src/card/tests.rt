ghost use Rattle.std.specs.Prelude.{ℕ, ◌+◌, ◌%◌, min, replicate, if◌then◌else◌, ◌==◌, nat_eq};
ghost use Rattle.apdu.specs.Statuses.{done, conditions_not_met};
ghost use Rattle.std.proofs.Common.{arith};
ghost use Rattle.std.proofs.lemmas.List.{length-replicate};
ghost use Rattle.std.proofs.lemmas.Bool.{cond-false, ne_eqb};

use crate::card::Card;
use crate::settings::{Settings, Style};
use apdu::{Application, Header, Status};
use std::process::Abort;
use std::test::Fail;

// An application that counts its runs: it answers P1 + P2 times the number of runs before this one, and at most 256 times;
// where that is no byte, it gets 6985.
#[derive(Drop)]
struct Counter {
    runs: u8,
}

impl Application for Counter {
    ghost means = { record { State = ℕ; state = λ c. c.runs; runs = λ x cla ins p1 p2 body. record { state = (x + 1) % 256; reply = record { answer = replicate (min (p1 + p2) 256) x; status = (if nat_eq (p1 + p2) 0 then conditions_not_met else done) } }; resets = λ x. 0 } };

    ghost short = { λ x cla ins p1 p2 body l. omega (arith, length-replicate (min (p1 + p2) 256) x) };

    ghost lawful = { λ x cla ins p1 p2 body l h. cond-false (p1 + p2 == 0) _ _ (ne_eqb (p1 + p2) 0 (λ e. omega (arith, length-replicate (min (p1 + p2) 256) x))) };

    fn run(&mut self, header: Header, _body: &[u8], buffer: &mut [u8; 256]) -> (usize, Status) {
        let runs = self.runs;
        self.runs = runs.wrapping_add(1);
        let count = (header.p1 as usize + header.p2 as usize).min(256);
        if count == 0 {
            return (0, Status::conditions_not_met());
        }
        buffer[0..count].fill(runs);
        (count, Status::done())
    }

    fn reset(&mut self) {
        self.runs = 0;
    }
}

fn installed(waits: u8, style: Style) -> Result<Card<Counter>, Fail> {
    let settings = Settings::new(waits, style).map_err(|_| Fail::new("outside the limits"))?;
    Ok(Card::new(Counter { runs: 0 }, settings))
}

// Hands characters to the card, and holds what it then sends to what is expected.
fn exchange(rt: &impl Abort, card: &mut Card<Counter>, sent: &[u8], expected: &[u8]) {
    for &byte in sent {
        card.receive(byte);
    }
    for &byte in expected {
        assert_eq!(rt; card.next(), Some(byte));
    }
    assert_eq!(rt; card.next(), None);
}

// One card that waits once before each procedure byte and moves bytes as a whole goes through all of these.
#[test]
fn whole(rt: HostRuntime) -> Result<(), Fail> {
    let turns: [(&[u8], &[u8]); 17] = [
        // run 0 has as many bytes as are wanted
        (b"\x00\xB0\x02\x00\x02", b"\x60\xB0\x00\x00\x60\x90\x00"),
        // run 1 has 3 bytes where 256 are wanted, and they are moved with no run
        (b"\x00\xB0\x03\x00\x00", b"\x60\x6C\x03"),
        (b"\x00\xB0\x03\x00\x03", b"\x60\xB0\x01\x01\x01\x60\x90\x00"),
        // run 2 has 3 bytes where 4 are wanted, and another header drops them; runs 3 and 4
        (b"\x00\xB0\x03\x00\x04", b"\x60\x6C\x03"),
        (b"\x00\xB0\x00\x00\x03", b"\x60\x69\x85"),
        (b"\x00\xB0\x03\x00\x03", b"\x60\xB0\x04\x04\x04\x60\x90\x00"),
        // reserved, and GET RESPONSE with nothing held; what comes before these are sent is ignored
        (b"\xFF\xB0\x02\x00\x02\x55", b"\x60\x6D\x00"),
        (b"\x00\xC0\x00\x00\x00\x55", b"\x60\x69\x85"),
        // run 5 is held by 61, and stays so where more is wanted
        (b"\x00\xA4\x02\x00\x00", b"\x60\x61\x02"),
        (b"\x00\xC0\x00\x00\x03", b"\x60\x6C\x02"),
        (b"\x00\xC0\x00\x00\x01", b"\x60\xC0\x05\x60\x90\x00"),
        (b"\x00\xC0\x00\x00\x01", b"\x60\x69\x85"),
        // run 6 after its data
        (b"\x00\xA4\x00\x00\x02", b"\x60\xA4"),
        (b"\xAA\xBB", b"\x60\x69\x85"),
        // run 7 has 256 bytes, which run 8 drops
        (b"\x00\xA4\xFF\x01\x00", b"\x60\x61\x00"),
        (b"\x00\xA4\x00\x00\x00", b"\x60\x69\x85"),
        (b"\x00\xC0\x00\x00\x00", b"\x60\x69\x85"),
    ];
    let mut card = installed(1, Style::Whole)?;
    for (sent, expected) in turns {
        exchange(&rt, &mut card, sent, expected);
    }
    Ok(())
}

// One card that moves bytes one by one, with no waits, and is reset in between.
#[test]
fn bytewise(rt: HostRuntime) -> Result<(), Fail> {
    let mut card = installed(0, Style::Bytewise)?;
    exchange(&rt, &mut card, b"\x00\xB0\x00\x00\x02", b"\x69\x85");
    exchange(
        &rt,
        &mut card,
        b"\x00\xB0\x02\x00\x02",
        b"\x4F\x01\x4F\x01\x90\x00",
    );
    exchange(&rt, &mut card, b"\x00\xA4\x01\x00\x02", b"\x5B");
    exchange(&rt, &mut card, b"\xAA", b"\x5B");
    exchange(&rt, &mut card, b"\xBB", b"\x61\x01");
    card.reset();
    exchange(&rt, &mut card, b"\x00\xC0\x00\x00\x01", b"\x69\x85");
    exchange(&rt, &mut card, b"\x00\xB0\x01", b"");
    card.reset();
    exchange(&rt, &mut card, b"\x00\xB0\x01\x00\x01", b"\x4F\x00\x90\x00");
    Ok(())
}
