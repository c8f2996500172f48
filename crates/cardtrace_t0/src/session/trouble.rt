ghost use Rattle.std.specs.Prelude.{◌≡◌};
ghost use Rattle.cardtrace_t0.specs.declared.session.trouble.Trouble.TheVariants.{Memory};

use std::alloc::AllocError;
use std::error::Error;
use std::fmt;

// Why a session fails: there is no memory for the text, or more characters crossed in a turn than the trace has places for.
#[derive(Clone, Copy, Debug, PartialEq, Eq)]
pub enum Trouble {
    Memory,
    LongTrace,
}

impl fmt::Display for Trouble {
    fn fmt<W: fmt::Write>(&self, f: &mut fmt::Formatter<W>) -> fmt::Result {
        f.write_str(match self {
            Trouble::Memory => "there is no memory for the text",
            Trouble::LongTrace => "more characters crossed in a turn than the trace has places for",
        })
    }
}

impl Error for Trouble {}

impl From<AllocError> for Trouble {
    ghost from_gives = { λ _ trouble. trouble ≡ Memory };

    fn from(_error: AllocError) -> Trouble {
        Trouble::Memory
    }
}
