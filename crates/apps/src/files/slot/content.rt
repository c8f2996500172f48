ghost use Rattle.std.specs.Prelude.{◌≡◌, ◌≤◌, [], length, IfOk};
ghost use Rattle.apps.specs.Files.{read_file, update_file};
ghost use Rattle.apps.specs.Replies.{replied, gives};
ghost use Rattle.apps.specs.FileTables.{file_in};

use crate::files::entry::Entry;
use crate::files::slot::Slot;
use apdu::Status;
use arrayvec::ArrayVec;

impl Slot {
    pub(in crate::files) fn id(&self) -> u16
        ensures { result ≡ self.now.id }
    {
        self.id
    }

    // What SELECT answers of this file.
    pub(in crate::files) fn description(&self) -> [u8; 10]
        ensures { result ≡ Rattle.apps.specs.Files.description self.now }
    {
        let [size_high, size_low] = (self.bytes.len() as u16).to_be_bytes();
        let [id_high, id_low] = self.id.to_be_bytes();
        [
            0x6f, 8, 0x80, 2, size_high, size_low, 0x83, 2, id_high, id_low,
        ]
    }

    // The file of an entry of a table, where the entry fits.
    pub(in crate::files) fn load(entry: &Entry, contents: &[u8]) -> Option<Slot>
        ensures { result ≡ file_in contents.now entry.now }
    {
        let content = contents.get(entry.start..)?.get(..entry.length)?;
        if content.is_empty() {
            return None;
        }
        let bytes = ArrayVec::try_from(content).ok()?;
        Some(Slot {
            id: entry.id,
            bytes,
        })
    }

    // READ BINARY of this file: its bytes from the offset on.
    pub(in crate::files) fn read(&self, offset: usize, body: &[u8]) -> Result<&[u8], Status>
        ensures reply { replied (λ bytes. bytes.now) result ≡ read_file self.now offset body.now }
        ensures fits { IfOk result (λ bytes. length bytes.now ≤ 256) }
    {
        let bytes = self.bytes.as_slice();
        if offset >= bytes.len() {
            return Err(Status::past_the_end());
        }
        if !body.is_empty() {
            return Err(Status::wrong_length());
        }
        Ok(&bytes[offset..])
    }

    // UPDATE BINARY of this file: the data overwrite its bytes from the offset on.
    pub(in crate::files) fn update(&mut self, offset: usize, body: &[u8]) -> Result<(), Status>
        ensures { gives self.new (λ _. []) result ≡ update_file self.old offset body.now }
    {
        let size = self.bytes.len();
        if offset >= size {
            return Err(Status::past_the_end());
        }
        if body.is_empty() || body.len() > size - offset {
            return Err(Status::wrong_length());
        }
        self.bytes[offset..offset + body.len()].copy_from_slice(body);
        Ok(())
    }
}
