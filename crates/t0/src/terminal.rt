use apdu::{Header, Status};

// What a header that was sent asks for: data inward; an answer outward; the answer of an outward command whose header is
// repeated after 6C; the answer that 61 left held.
#[derive(Clone, Copy, Debug, PartialEq, Eq)]
pub enum Kind {
    Inward,
    Outward,
    Repeated,
    Response,
}

// Where a command stands: it sends its header, of which so many characters are sent; it awaits a procedure byte; it sends so
// many bytes of data; it awaits so many bytes of the answer; it awaits SW2 after this SW1.
#[derive(Clone, Copy, Debug, PartialEq, Eq)]
pub enum Phase {
    Heading(u8),
    Procedure,
    Sending(usize),
    Receiving(usize),
    Closing(u8),
}

// A terminal that may send a command.
#[derive(Drop)]
pub struct Ready {}

// A terminal whose command awaits its status: the header and P3, what it asks for, Ne, how many bytes move in all and how
// many of them are still due, and where it stands.
#[derive(Drop)]
pub struct Waiting {
    header: Header,
    p3: u8,
    kind: Kind,
    ne: usize,
    total: usize,
    due: usize,
    phase: Phase,
}

// A terminal whose card holds an answer after 61.
#[derive(Drop)]
pub struct Holding {}

// What 61 leaves beside the terminal: the CLA, Ne and the count of the held answer. It has to be spent, by `fetch` or by
// `discard`; a program that lets it go does not compile.
pub struct Token {
    cla: u8,
    ne: usize,
    held: usize,
}

// What the terminal wants: to send this character; to send this byte of the data; to receive a character.
#[derive(Clone, Copy, Debug, PartialEq, Eq)]
pub enum Want {
    Send(u8),
    SendData(usize),
    Receive,
}

// What a received character comes to: the command goes on; it goes on, and the character is this byte of the answer; it is
// done, with so many answer bytes and a status; the card holds an answer; the card broke the protocol.
pub enum Step {
    Next(Waiting),
    Keep(Waiting, usize),
    Done(Ready, usize, Status),
    Held(Holding, Token),
    Broken,
}

mod begin;
mod drive;
