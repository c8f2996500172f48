use crate::card::Card;
use crate::terminal::{Holding, Token, Waiting};
use apdu::Status;
use std::ops::ControlFlow;

// A card at the end of a line.
#[derive(Drop)]
pub struct WiredCard<A, L> {
    card: Card<A>,
    line: L,
}

// Why a command is not done: the protocol is broken, or the conversation is lost on the line.
#[derive(Clone, Copy, Debug, PartialEq, Eq)]
pub enum Failure {
    Broken,
    Lost,
}

// How a conversation ends: done, with a count of answer bytes and a status; or with an answer held.
pub(crate) enum Ended {
    Done(usize, Status),
    Held(Holding, Token),
}

// What one character comes to: the conversation goes on, or it ends.
pub(crate) type Spoke = ControlFlow<Ended, Waiting>;

mod failing;
mod speak;
mod whole;
mod wiring;

pub use whole::converse;
