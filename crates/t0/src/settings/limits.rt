ghost use Rattle.std.specs.Prelude.{◌≡◌, if◌then◌else◌, Some, None, nat_le};
ghost use Rattle.t0.specs.Limits.{set_to};

use crate::settings::{Settings, Style};
use apdu::SettingRefusal;

impl Settings {
    // Settings with 0 to 15 waits.
    pub fn new(waits: u8, style: Style) -> Result<Settings, SettingRefusal>
        ensures { set_to result ≡ (if nat_le waits 15 then Some (waits, style) else None) }
    {
        if waits > 15 {
            return Err(SettingRefusal::OutsideLimits);
        }
        Ok(Settings { waits, style })
    }

    pub(crate) fn waits(self) -> u8
        ensures { result ≡ self.waits }
    {
        self.waits
    }

    pub(crate) fn style(self) -> Style
        ensures { result ≡ self.style }
    {
        self.style
    }
}
