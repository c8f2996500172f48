pub use t0::Style;

// The transmission protocol of the link.
#[derive(Clone, Copy, Debug, PartialEq, Eq)]
pub enum Protocol {
    T0,
    T1,
}

// What the link line says.
#[derive(Clone, Copy, Debug, PartialEq, Eq)]
pub struct Settings {
    pub protocol: Protocol,
    pub ifsc: u8,
    pub ifsd: u8,
    pub waits: u8,
    pub style: Style,
}

// A line of a script. The command of a send, of `length` bytes, lies apart.
#[derive(Clone, Copy, Debug, PartialEq, Eq)]
pub enum Line {
    Link(Settings),
    Damage(u16),
    Send { program: u8, length: u16 },
    Reset { program: u8 },
}

// The bytes of the longest command that a line may send.
pub(crate) const COMMAND_MAX: usize = 300;

// The length of the longest line, without its LF: a send of the longest command.
pub(crate) const LINE_MAX: usize = 609;

mod field;
mod hex;
mod link;
mod print;
mod read;

pub use print::print_line;
pub(crate) use read::parse;
pub use read::read_line;
