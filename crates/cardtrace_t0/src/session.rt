use apps::Files;
use arrayvec::ArrayVec;
use link::DirectLink;
use script::line::Settings;
use script::reader::Reader;
use t0link::T0Link;
use wire::MarkedLine;

// Where the playing of a script stands: before its link line; among its damage lines, with what the link line said and the
// positions so far; or among its turns, over T=0 or, for T=1, as yet on the direct card.
#[derive(Drop)]
pub enum Stand {
    Unlinked,
    Opening {
        settings: Settings,
        marks: ArrayVec<u16, 64>,
    },
    OverT0(T0Link<Files, MarkedLine>),
    Direct(DirectLink<Files>),
}

// A session of the program: the reader of the script, the link, and the number of the coming turn.
#[derive(Drop)]
pub struct Session {
    reader: Reader,
    stand: Stand,
    turn: u64,
}

mod open;
mod play;
mod print;
mod trouble;

pub use trouble::Trouble;
