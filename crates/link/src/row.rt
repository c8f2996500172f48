ghost use Rattle.std.specs.Prelude.{◌≡◌};

use apdu::{Refusal, Status};

// The kinds of a row that are no refusal's number: a command that was done, and a reset that was done.
const DONE: u8 = 0;

const RESET: u8 = 16;

// A row of a run's journal, a plain record: the program's number; kind 0 where the turn was done, 16 for the word reset, else
// the refusal's number; SW1 and SW2; and the place and length of the answer bytes in the data buffer. C takes it out, so its
// kind is a number.
#[derive(Clone, Copy, Debug, PartialEq, Eq)]
#[repr(C)]
pub struct Row {
    pub program: u8,
    pub kind: u8,
    pub sw1: u8,
    pub sw2: u8,
    pub place: usize,
    pub length: usize,
}

impl Row {
    ghost use Rattle.link.specs.Rows.{row_of_result};

    // The row of a turn with this result, its answer from `place` on.
    #[inline]
    pub(crate) fn of(
        program: u8,
        place: usize,
        res: Result<Option<(usize, Status)>, Refusal>,
    ) -> Row
        ensures { result ≡ row_of_result program place res }
    {
        let empty = Row {
            program,
            kind: DONE,
            sw1: 0,
            sw2: 0,
            place,
            length: 0,
        };
        match res {
            Ok(Some((length, status))) => Row {
                sw1: status.sw1(),
                sw2: status.sw2(),
                length,
                ..empty
            },
            Ok(None) => Row {
                kind: RESET,
                ..empty
            },
            Err(refusal) => Row {
                kind: u8::from(refusal),
                ..empty
            },
        }
    }
}
