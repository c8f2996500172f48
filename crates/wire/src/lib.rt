// What lies between terminal and card: the line, which carries one character at a time and gives it back as sent or says that
// it was damaged; two lines, one with marked positions and one that damages every p-th character; the characters of a trace;
// and the one kind of list in handed memory, which holds the first items that fit and counts all.
#![tactic(auto)]

mod line;
mod marked;
mod periodic;
mod record;
mod traced;

pub use line::Line;
pub use marked::MarkedLine;
pub use periodic::PeriodicLine;
pub use record::Record;
pub use traced::{Sender, Traced};
