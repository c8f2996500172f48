// How a turn ended: with a status, by a reset, or with the number of a refusal.
#[derive(Clone, Copy, Debug, PartialEq, Eq)]
pub enum Outcome {
    Status(u8, u8),
    Reset,
    Refusal(u8),
}

// The turn that a line tells of: its number, and its program.
#[derive(Clone, Copy, Debug, PartialEq, Eq)]
pub struct TurnLabel {
    pub turn: u64,
    pub program: u8,
}

mod format;

pub use format::{LINE_ROOM, bad_line, character_line, result_line, turn_line};
pub use wire::Sender;
