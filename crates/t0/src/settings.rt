ghost use Rattle.std.specs.Prelude.{◌≤◌};

// How data moves: all bytes due after one procedure byte, or one byte after each.
#[derive(Clone, Copy, Debug, PartialEq, Eq)]
pub enum Style {
    Whole,
    Bytewise,
}

// The card's settings: how many bytes 60 it sends before every other procedure byte, 0 to 15, and its style.
#[derive(Clone, Copy, Debug, PartialEq, Eq)]
pub struct Settings {
    waits: u8,
    style: Style,
    ghost few: { waits ≤ 15 },
}

mod limits;
