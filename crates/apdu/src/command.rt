use crate::header::Header;

// The four cases of a command: header alone; header and Le; header, Lc and data; header, Lc, data and Le.
#[derive(Clone, Copy, Debug, PartialEq, Eq)]
pub enum Case {
    One,
    Two,
    Three,
    Four,
}

// A command read in place: its data bytes are lent from the bytes that it was read from.
#[derive(Clone, Copy)]
pub struct Command<'a> {
    pub case: Case,
    pub header: Header,
    pub body: &'a [u8],
    pub ne: usize,
}

mod read;

pub use read::{judge, read_command, wanted};
