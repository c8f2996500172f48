ghost use Rattle.std.specs.Prelude.{◌≡◌};
ghost use Rattle.apdu.specs.Refusals.{number, setting_number};

// Why a link refuses a turn, with the refusal's number. The first four are the box program's doing, the fifth the line's, the
// sixth the card's.
#[derive(Clone, Copy, Debug, PartialEq, Eq)]
pub enum Refusal {
    // the command is malformed
    Malformed = 1,
    // its CLA or INS is reserved
    Reserved = 2,
    // its case goes against the direction of its INS
    Direction = 3,
    // the answer buffer is shorter than Ne
    Room = 4,
    // the link is lost, by this turn or before
    Lost = 5,
    // the card broke the protocol; the link is then lost
    Protocol = 6,
}

impl From<Refusal> for u8 {
    ghost from_gives = { λ refusal n. n ≡ number refusal };

    fn from(refusal: Refusal) -> u8 {
        refusal as u8
    }
}

// Why an installer's setting is refused, with the refusal's number; nothing is made then.
#[derive(Clone, Copy, Debug, PartialEq, Eq)]
pub enum SettingRefusal {
    // a setting or a file table lies outside its limits
    OutsideLimits = 7,
}

impl From<SettingRefusal> for u8 {
    ghost from_gives = { λ refusal n. n ≡ setting_number refusal };

    fn from(refusal: SettingRefusal) -> u8 {
        refusal as u8
    }
}
