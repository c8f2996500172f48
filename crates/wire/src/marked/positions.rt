ghost use Rattle.std.specs.Prelude.{◌≡◌, take, replicate, if◌then◌else◌, Some, None};
ghost use Rattle.apdu.specs.Applications.{opened};
ghost use Rattle.wire.specs.MarkedLines.{rising, are_marks, is_marked, at_marks, marks_of, begun};

use crate::line::Line;
use crate::marked::MarkedLine;
use apdu::SettingRefusal;

// Whether each position is above the one before it.
fn is_rising(positions: &[u16]) -> bool
    ensures { result ≡ rising positions.now }
{
    positions.is_sorted_by(|before, after| before < after)
}

// The first 64 positions, and zeros behind them.
fn padded(positions: &[u16]) -> [u16; 64]
    ensures { result ≡ opened (take 64 positions.now) (replicate 64 0) }
{
    let mut places = [0u16; 64];
    let count = positions.len().min(64);
    places[0..count].copy_from_slice(&positions[0..count]);
    places
}

impl MarkedLine {
    // A line with these positions marked, at most 64 and strictly rising, of which no character has crossed yet.
    pub fn new(positions: &[u16]) -> Result<MarkedLine, SettingRefusal>
        ensures { begun result ≡ (if are_marks positions.now then Some (positions.now, 0) else None) }
    {
        let count = positions.len();
        if count > 64 || !is_rising(positions) {
            return Err(SettingRefusal::OutsideLimits);
        }
        let marks = padded(positions);
        Ok(MarkedLine {
            marks,
            count,
            at: 0,
        })
    }
}

// Whether a position is among the marks.
fn is_marked(marks: &[u16], position: u32) -> bool
    ensures { result ≡ is_marked marks.now position }
{
    marks.iter().any(|mark| u32::from(*mark) == position)
}

impl Line for MarkedLine {
    ghost damage = { λ l. at_marks (marks_of l) l.at };

    fn carry(&mut self, byte: u8) -> Option<u8> {
        let damaged = is_marked(&self.marks[0..self.count], self.at);
        if self.at < 65_536 {
            self.at += 1;
        }
        if damaged { None } else { Some(byte) }
    }
}
