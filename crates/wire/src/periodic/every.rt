ghost use Rattle.std.specs.Prelude.{◌≡◌, if◌then◌else◌, Some, None};
ghost use Rattle.wire.specs.PeriodicLines.{every, begun, is_period};

use crate::line::Line;
use crate::periodic::PeriodicLine;
use apdu::SettingRefusal;

impl PeriodicLine {
    // A line of this period, 2 to 255, of which no character has crossed yet.
    pub fn new(period: u8) -> Result<PeriodicLine, SettingRefusal>
        ensures { begun result ≡ (if is_period period then Some (period, 0) else None) }
    {
        if period < 2 {
            return Err(SettingRefusal::OutsideLimits);
        }
        Ok(PeriodicLine { period, past: 0 })
    }
}

impl Line for PeriodicLine {
    ghost damage = { λ l. every l.period l.past };

    fn carry(&mut self, byte: u8) -> Option<u8> {
        if self.past + 1 == self.period {
            self.past = 0;
            None
        } else {
            self.past += 1;
            Some(byte)
        }
    }
}
