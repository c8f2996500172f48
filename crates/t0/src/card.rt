ghost use Rattle.std.specs.Prelude.{◌≡◌, ◌<◌, length};

use crate::settings::Settings;
use apdu::{Header, Status};

// Data on their way in: the header of their command, Lc, and how many bytes have come, which are not all yet.
#[derive(Clone, Copy, Debug, PartialEq, Eq)]
struct Taking {
    header: Header,
    lc: u8,
    have: u8,
    ghost short: { have < lc },
}

// What the card is receiving: a header, of which none or some characters have come, or data.
#[derive(Clone, Copy, Debug, PartialEq, Eq)]
enum Receiving {
    Nothing,
    Cla(u8),
    ClaIns(u8, u8),
    ClaInsP1(u8, u8, u8),
    Header(Header),
    Data(Taking),
}

// An answer that lies in the card's memory: the place of its last byte, so that it has 1 to 256 bytes, and its status.
#[derive(Clone, Copy, Debug, PartialEq, Eq)]
struct Answer {
    last: u8,
    status: Status,
}

// What the card holds: nothing, an answer after 61, or an answer after 6C for this header.
#[derive(Clone, Copy, Debug, PartialEq, Eq)]
enum Kept {
    Nothing,
    By61(Answer),
    By6C(Header, Answer),
}

// Answer bytes on their way out: the INS that moves them, the places of the next one and of the last one, and the status that
// follows them.
#[derive(Clone, Copy, Debug, PartialEq, Eq)]
struct Giving {
    ins: u8,
    at: u8,
    last: u8,
    status: Status,
}

// What the card sends after the bytes 60: nothing; the procedure byte that asks for data of this INS; the procedure byte of
// answer bytes, and these; answer bytes; SW1 and SW2; SW2.
#[derive(Clone, Copy, Debug, PartialEq, Eq)]
enum Then {
    Nothing,
    Ask(u8),
    Announce(Giving),
    Give(Giving),
    Close(u8, u8),
    End(u8),
}

// What the card will still send: so many bytes 60, and then more.
#[derive(Clone, Copy, Debug, PartialEq, Eq)]
struct Out {
    waits: u8,
    then: Then,
}

// A T=0 card, driven by single characters: the application, the settings, what it is receiving, the data bytes, the answer
// bytes, what it holds, and what it will still send before it receives again.
#[derive(Drop)]
pub struct Card<A> {
    app: A,
    settings: Settings,
    receiving: Receiving,
    body: [u8; 255], // fixed memory: a card has no heap
    answer: [u8; 256], // fixed memory, which the application writes in place
    kept: Kept,
    out: Out,
    ghost room: { length body ≡ 255 },
    ghost space: { length answer ≡ 256 },
}

mod commands;
mod drive;
mod output;
mod running;
mod saying;
#[cfg(test)]
mod tests;
