ghost use Rattle.std.specs.Prelude.{◌≡◌, Some};
ghost use Rattle.script.specs.Refusals.{number, message};

use crate::reader::Refusal;
use std::error::Error;
use std::fmt;

// The refusal's number.
impl From<Refusal> for u8 {
    ghost from_gives = { λ refusal n. n ≡ number refusal };

    fn from(refusal: Refusal) -> u8 {
        match refusal {
            Refusal::BadLine { .. } => 9,
        }
    }
}

impl fmt::Display for Refusal {
    ghost output = { λ refusal. Some (message refusal) };

    fn fmt<W: fmt::Write>(&self, f: &mut fmt::Formatter<W>) -> fmt::Result {
        match self {
            Refusal::BadLine { line } => write!(f, "line {line} is bad"),
        }
    }
}

impl Error for Refusal {}
