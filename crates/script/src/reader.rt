use crate::line::{COMMAND_MAX, LINE_MAX};
use arrayvec::ArrayVec;
use std::marker::Model;

// Where a script stands: before its link line, among its damage lines, or among its turns. The next damage must lie at `floor` or later, and there have been `count` of them.
#[derive(Clone, Copy, Debug, PartialEq, Eq)]
pub enum Stage {
    Start,
    Marks { floor: u32, count: u8 },
    Turns,
}

// Why a script is refused: its first bad line, counted from 1.
#[derive(Clone, Copy, Debug, PartialEq, Eq)]
pub enum Refusal {
    BadLine { line: u64 },
}

// A reader of scripts that is fed byte by byte, with the current line as far as it has come and the command of the last send line.
#[derive(Drop)]
pub struct Reader {
    number: u64,
    stage: Stage,
    part: ArrayVec<u8, LINE_MAX>,
    command: ArrayVec<u8, COMMAND_MAX>,
    over: bool,
}

impl Model for Reader {
    ghost use Rattle.script.specs.Readings.{Reading};

    ghost Value = { Reading };

    // A reader is seen as a reading with all of its fields: of the current line and of the command their bytes, the others as they stand.
    ghost view = { λ r. record { number = r.number; stage = r.stage; part = r.part.items; command = r.command.items; over = r.over } };
}

mod feed;
mod numbers;
mod order;
