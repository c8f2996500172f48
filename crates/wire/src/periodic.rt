ghost use Rattle.std.specs.Prelude.{◌≡◌, ◌<◌, ◌≤◌};

// A line that damages every p-th character, counted from 1: p, 2p, 3p and so on.
#[derive(Clone, Copy)]
pub struct PeriodicLine {
    period: u8,
    past: u8,
    ghost least: { 2 ≤ period },
    ghost inside: { past < period },
}

mod every;
