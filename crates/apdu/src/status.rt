ghost use Rattle.std.specs.Prelude.{T};
ghost use Rattle.apdu.specs.Lawful.{lawful};

// A status, SW1 SW2. Its invariant bounds SW1 (62 to 6F but not 6C, or 90 to 9F), so that no other status exists.
#[derive(Clone, Copy, Debug, PartialEq, Eq)]
pub struct Status {
    sw1: u8,
    sw2: u8,
    ghost ok: { T (lawful sw1) },
}

mod code;

pub use code::is_lawful;
