ghost use Rattle.std.specs.Prelude.{ℕ, ◌+◌, ◌%◌, [], ◌∷◌};
ghost use Rattle.apdu.specs.Statuses.{done};
ghost use Rattle.std.proofs.Common.{rules};

use crate::direct::DirectCard;
use crate::direct_link::DirectLink;
use crate::link::{Link, take};
use crate::row::Row;
use crate::running::run;
use crate::turn::{Order, Turn};
use apdu::{Application, Header, Refusal, Status};
use wire::{Record, Traced};

// Counts its runs, and answers its count and 7 with status 9000; a reset begins at 0.
#[derive(Drop)]
struct Counter {
    count: u8,
}

impl Application for Counter {
    ghost means = { record { State = ℕ; state = λ a. a.count; runs = λ x cla ins p1 p2 body. record { state = (x + 1) % 256; reply = record { answer = x ∷ 7 ∷ []; status = done } }; resets = λ x. 0 } };

    ghost short = { Prim.search rules };

    ghost lawful = { Prim.search rules };

    fn run(&mut self, _header: Header, _body: &[u8], buffer: &mut [u8; 256]) -> (usize, Status) {
        buffer[0..2].copy_from_slice(&[self.count, 7]);
        self.count = self.count.wrapping_add(1);
        (2, Status::done())
    }

    fn reset(&mut self) {
        self.count = 0;
    }
}

const READ_TWO: [u8; 5] = [0x00, 0xb0, 0x00, 0x00, 0x02];

const NO_ROW: Row = Row {
    program: 99,
    kind: 99,
    sw1: 99,
    sw2: 99,
    place: 99,
    length: 99,
};

const NO_CHARACTER: Traced = Traced {
    by_card: false,
    byte: 0,
    damaged: false,
};

fn turn(tag: u8, start: usize, length: usize) -> Turn {
    Turn {
        tag,
        program: 3,
        start,
        length,
    }
}

fn row(kind: u8, sw1: u8, sw2: u8, place: usize, length: usize) -> Row {
    Row {
        program: 3,
        kind,
        sw1,
        sw2,
        place,
        length,
    }
}

// A read, a turn with tag 2, a read whose place passes the end, a reset, a read that finds one byte left.
#[test]
fn a_run_shares_the_data_buffer_out(rt: HostRuntime) {
    let mut link = DirectLink::new(Counter { count: 5 });
    let turns = [
        turn(0, 0, 5),
        turn(2, 0, 5),
        turn(0, 1, 5),
        turn(1, 0, 0),
        turn(0, 0, 5),
    ];
    let mut data = [0, 0, 9];
    let mut rows = [NO_ROW; 5];
    let mut places = [NO_CHARACTER; 1];
    let mut journal = Record::new(&mut rows);
    let mut trace = Record::new(&mut places);
    let used = run(
        &mut link,
        &turns,
        &READ_TWO,
        &mut data,
        &mut journal,
        &mut trace,
    );
    assert_eq!(rt; trace.count(), 0);
    assert_eq!(rt; journal.count(), 5);
    assert_eq!(rt; used, Ok(2));
    assert_eq!(rt;
        rows,
        [
            row(0, 0x90, 0x00, 0, 2),
            row(1, 0, 0, 2, 0),
            row(1, 0, 0, 2, 0),
            row(16, 0, 0, 2, 0),
            row(4, 0, 0, 2, 0),
        ]
    );
    assert_eq!(rt; data, [5, 7, 9]);
}

// Two turns and one free place.
#[test]
fn a_full_journal_takes_no_turn(rt: HostRuntime) {
    let mut link = DirectLink::new(Counter { count: 5 });
    let turns = [turn(0, 0, 5), turn(0, 0, 5)];
    let mut data = [0, 0, 9];
    let mut rows = [NO_ROW; 1];
    let mut places = [NO_CHARACTER; 1];
    let mut journal = Record::new(&mut rows);
    let mut trace = Record::new(&mut places);
    let refused = run(
        &mut link,
        &turns,
        &READ_TWO,
        &mut data,
        &mut journal,
        &mut trace,
    );
    assert_eq!(rt; journal.count(), 0);
    assert_eq!(rt; refused.map_err(u8::from), Err(8));
    assert_eq!(rt; rows, [NO_ROW]);
    assert_eq!(rt; data, [0, 0, 9]);
}

// A direct card that is told a loss after one turn: a refusal comes before the loss, a reset is lost too.
#[test]
fn the_direct_card_falls_silent_at_the_loss(rt: HostRuntime) {
    let mut card = DirectCard::new(Counter { count: 5 }, Some(1));
    let mut answer = [0, 0, 9];
    assert_eq!(rt; card.send(&READ_TWO, &mut answer).err(), None);
    assert_eq!(rt; answer, [5, 7, 9]);
    assert_eq!(rt;
        card.send(&READ_TWO, &mut answer).err(),
        Some(Refusal::Lost)
    );
    assert_eq!(rt; card.send(b"", &mut answer).err(), Some(Refusal::Malformed));
    assert_eq!(rt; card.reset().err(), Some(Refusal::Lost));
    assert_eq!(rt; answer, [5, 7, 9]);
}

// A reset between reads begins the count again; a buffer of one byte is too short for Ne 2.
#[test]
fn a_direct_link_carries_every_turn(rt: HostRuntime) {
    let mut link = DirectLink::new(Counter { count: 5 });
    let mut places = [NO_CHARACTER; 1];
    let mut trace = Record::new(&mut places);
    let mut answer = [0, 0, 9];
    assert_eq!(rt; link.send(&READ_TWO, &mut answer, &mut trace).err(), None);
    assert_eq!(rt; answer, [5, 7, 9]);
    let mut short = [9];
    assert_eq!(rt;
        link.send(&READ_TWO, &mut short, &mut trace).err(),
        Some(Refusal::Room)
    );
    assert_eq!(rt; short, [9]);
    assert_eq!(rt; link.reset(&mut trace).err(), None);
    let mut again = [9, 9];
    assert_eq!(rt; link.send(&READ_TWO, &mut again, &mut trace).err(), None);
    assert_eq!(rt; again, [0, 7]);
    assert_eq!(rt; trace.count(), 0);
}

// A read, a reset, a read whose buffer is too short, at the direct card and over a link.
#[test]
fn one_function_takes_any_order(rt: HostRuntime) {
    let mut card = DirectCard::new(Counter { count: 5 }, None);
    let mut link = DirectLink::new(Counter { count: 5 });
    let mut places = [NO_CHARACTER; 1];
    let mut trace = Record::new(&mut places);
    let mut answer = [0, 0, 9];
    let read = turn(0, 0, 5).order(&READ_TWO);
    assert_eq!(rt; read, Order::Send(&READ_TWO));
    let done = Ok(Some((2, Status::done())));
    assert_eq!(rt; card.take(read, &mut answer), done);
    assert_eq!(rt; answer, [5, 7, 9]);
    assert_eq!(rt; card.take(Order::Reset, &mut answer), Ok(None));
    assert_eq!(rt; card.take(read, &mut answer[0..1]), Err(Refusal::Room));
    assert_eq!(rt; take(&mut link, read, &mut answer, &mut trace), done);
    assert_eq!(rt;
        take(&mut link, Order::Reset, &mut answer, &mut trace),
        Ok(None)
    );
    assert_eq!(rt;
        take(&mut link, read, &mut answer[0..1], &mut trace),
        Err(Refusal::Room)
    );
    assert_eq!(rt; answer, [5, 7, 9]);
    assert_eq!(rt; trace.count(), 0);
}
