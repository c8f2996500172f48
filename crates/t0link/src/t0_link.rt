ghost use Rattle.std.specs.Prelude.{◌≡◌, true, ◌||◌};
ghost use Rattle.t0link.specs.Resting.{resting};

use t0::WiredCard;

// A T=0 link: the card with its application at the end of the line, and whether the link is lost. While it is not, the card
// rests between turns. The terminal exists only during a turn.
#[derive(Drop)]
pub struct T0Link<A, L> {
    wired: WiredCard<A, L>,
    lost: bool,
    ghost rests: { (lost || resting wired.card) ≡ true },
}

mod turns;
