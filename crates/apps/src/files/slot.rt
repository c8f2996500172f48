use arrayvec::ArrayVec;
use std::marker::Model;

// A place for one file: its id, and its bytes, at most 256.
#[derive(Default, Drop)]
pub(super) struct Slot {
    id: u16,
    bytes: ArrayVec<u8, 256>,
}

impl Model for Slot {
    ghost use Rattle.std.specs.Prelude.{◌≤◌, length};
    ghost use Rattle.apps.specs.Files.{File};

    ghost Value = { File };

    // It is seen as the file that lies in it.
    ghost view = { λ s. record { id = s.id; bytes = s.bytes.items } };

    ghost invariant = { λ s. length s.bytes.items ≤ 256 };
}

mod content;
