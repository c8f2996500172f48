use arrayvec::ArrayVec;
use std::marker::Model;

// The most movements that a purse holds.
const PLACES: usize = 32;

// The most cents of a balance and of an amount.
const LIMIT: u32 = 1_000_000;

// A purse, seen as the list of its movements in cents, the oldest first.
#[derive(Drop)]
pub struct Purse {
    movements: ArrayVec<i32, PLACES>,
}

impl Model for Purse {
    ghost use Rattle.std.specs.Prelude.{List, ℤ};
    ghost use Rattle.apps.specs.Purse.{Kept};

    ghost Value = { List ℤ };

    // It is seen as its movements, the oldest first.
    ghost view = { λ p. p.movements.items };

    ghost invariant = { λ p. Kept p.movements.items };
}

mod commands;
mod moves;
#[cfg(test)]
mod tests;
