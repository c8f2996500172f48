// Turns of a script, whatever carries them: a turn is a command to send or a warm reset, and it gives an entry of the journal.
// Here stand what turns, entries and rows are; the interface `Link` behind which every transport stands, and what it means;
// `run`, which takes a list of turns over any link and shares one data buffer out among them; the direct card, an application
// with no link at all; and the laws that hold every link to it.
#![tactic(auto)]

mod answer;
mod direct;
mod direct_link;
mod laws;
mod link;
mod refusal;
mod row;
mod running;
#[cfg(test)]
mod tests;
mod turn;

pub use direct::DirectCard;
pub use direct_link::DirectLink;
pub use laws::{direct_card_law, examples_stand, rows_give_entries, runs_compose, turns_told_true};
pub use link::{Link, take};
pub use refusal::RunRefusal;
pub use row::Row;
pub use running::run;
pub use turn::{Order, Turn};
