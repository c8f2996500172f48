ghost use Rattle.std.specs.Prelude.{◌≡◌};
ghost use Rattle.apps.specs.FilePlaces.{place, current_at};

use crate::files::Files;
use apdu::{Header, Status};

impl Files {
    // The place of the file with this id.
    pub(super) fn find(&self, id: u16) -> Option<usize>
        ensures { result ≡ place id self.now.files }
    {
        self.slots.iter().position(|slot| slot.id() == id)
    }

    // The place of the current file, and the offset that P1 and P2 spell.
    pub(super) fn current_at(&self, header: Header) -> Result<(usize, usize), Status>
        ensures { result ≡ current_at self.now header.p1 header.p2 }
    {
        if header.p1 >= 0x80 {
            return Err(Status::wrong_parameters());
        }
        let place = self
            .current
            .and_then(|id| self.find(id))
            .ok_or(Status::no_current_file())?;
        Ok((place, u16::from_be_bytes([header.p1, header.p2]) as usize))
    }
}
