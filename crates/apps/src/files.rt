use crate::files::slot::Slot;
use arrayvec::ArrayVec;
use std::marker::Model;

mod application;
mod commands;
mod entry;
mod lookup;
mod slot;
mod table;
#[cfg(test)]
mod tests;

pub use entry::Entry;

// The most files of a card.
const PLACES: usize = 8;

// The files of a card, and the id of the current one, if any.
#[derive(Drop)]
pub struct Files {
    slots: ArrayVec<Slot, PLACES>,
    current: Option<u16>,
}

impl Model for Files {
    ghost use Rattle.apps.specs.Files.{Shelf};
    ghost use Rattle.apps.specs.FileStock.{Stocked};

    ghost Value = { Shelf };

    // They are seen as the files, in the order of the table, and the id of the current one.
    ghost view = { λ f. record { files = f.slots.items; current = f.current } };

    ghost invariant = { λ f. Stocked (record { files = f.slots.items; current = f.current }) };
}
