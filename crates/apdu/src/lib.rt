// Commands and statuses of a smart card: how a command's bytes are read into the four cases, which CLA and INS are reserved,
// which way an INS carries data, what a status may be, the refusals of commands and links with their numbers, and the
// interface behind which every application of the card stands.
#![tactic(auto)]

mod application;
mod command;
mod header;
mod refusal;
mod status;
#[cfg(test)]
mod tests;

pub use application::Application;
pub use command::{Case, Command, judge, read_command, wanted};
pub use header::Header;
pub use refusal::{Refusal, SettingRefusal};
pub use status::{Status, is_lawful};
