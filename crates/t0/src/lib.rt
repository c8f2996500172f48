// The transport T=0: the card, driven by single characters by any terminal; the terminal, driven by single characters by any
// card; and the conversation of the two over any line.
#![tactic(auto)]

mod card;
mod carry;
mod p3;
mod settings;
mod talk;
mod terminal;

pub use apdu::Header;
pub use card::Card;
pub use settings::{Settings, Style};
pub use talk::{Failure, WiredCard, converse};
pub use terminal::{Holding, Kind, Phase, Ready, Step, Token, Waiting, Want};
