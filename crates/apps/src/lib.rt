// Applications of the card: files and the purse, each in fixed memory behind the interface of apdu.
#![tactic(auto)]

mod answer;
mod files;
mod purse;

pub use files::{Entry, Files};
pub use purse::Purse;
