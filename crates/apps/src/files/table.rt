ghost use Rattle.std.specs.Prelude.{◌≡◌, length, IfOk};
ghost use Rattle.apps.specs.FileTables.{has_id, distinct, shelf_of};
ghost use Rattle.apps.specs.FileStock.{Stocked, RunsKeepStocked, ResetsKeepStocked};
ghost use Rattle.apps.specs.FileValues.{shelf_if};

use crate::files::slot::Slot;
use crate::files::{Entry, Files, PLACES};
use apdu::SettingRefusal;
use arrayvec::ArrayVec;

// Whether some entry has this id.
fn has_id(table: &[Entry], id: u16) -> bool
    ensures { result ≡ has_id id table.now }
{
    table.iter().any(|entry| entry.id == id)
}

// Whether no two entries have one id.
fn are_distinct(table: &[Entry]) -> bool
    ensures { result ≡ distinct table.now }
{
    match table {
        [] => true,
        [entry, rest @ ..] => !has_id(rest, entry.id) && are_distinct(rest),
    }
}

impl Files {
    // The files of a table, with their content out of lent bytes; no file is current. They are at most 8, each of at most 256
    // bytes. The last two clauses are laws of the files: no command and no reset makes them more or longer than that.
    pub fn new(table: &[Entry], contents: &[u8]) -> Result<Files, SettingRefusal>
        ensures value { shelf_if result ≡ shelf_of table.now contents.now }
        ensures made { IfOk result Stocked }
        ensures runs { RunsKeepStocked }
        ensures resets { ResetsKeepStocked }
    {
        if table.is_empty() || table.len() > PLACES || !are_distinct(table) {
            return Err(SettingRefusal::OutsideLimits);
        }
        let mut slots = ArrayVec::new();
        for entry in table {
            let slot = Slot::load(entry, contents).ok_or(SettingRefusal::OutsideLimits)?;
            slots.push(slot);
        }
        Ok(Files {
            slots,
            current: None,
        })
    }

    // How many files there are: at most 8, and each has at most 256 bytes.
    pub fn count(&self) -> usize
        ensures value { result ≡ length self.now.files }
        ensures kept { Stocked self.now }
    {
        self.slots.len()
    }
}
