ghost use Rattle.std.specs.Prelude.{◌≡◌, ◌≤◌, [], length, IfOk};
ghost use Rattle.apps.specs.Files.{select_file, read_binary, update_binary};
ghost use Rattle.apps.specs.Replies.{gives};

use crate::files::Files;
use apdu::{Header, Status};

impl Files {
    // SELECT: the file with the id in the data becomes current, and the answer describes it.
    pub(super) fn select(&mut self, header: Header, body: &[u8]) -> Result<[u8; 10], Status>
        ensures { gives self.new (λ bytes. bytes) result ≡ select_file self.old header.p1 header.p2 body.now }
    {
        if header.p1 != 0 || header.p2 != 0 {
            return Err(Status::wrong_parameters());
        }
        let [high, low] = body else {
            return Err(Status::wrong_length());
        };
        let id = u16::from_be_bytes([*high, *low]);
        let place = self.find(id).ok_or(Status::file_not_found())?;
        self.current = Some(id);
        Ok(self.slots[place].description())
    }

    // READ BINARY: the answer is the current file from the offset on.
    pub(super) fn read(&self, header: Header, body: &[u8]) -> Result<&[u8], Status>
        ensures reply { gives self.now (λ bytes. bytes.now) result ≡ read_binary self.now header.p1 header.p2 body.now }
        ensures fits { IfOk result (λ bytes. length bytes.now ≤ 256) }
    {
        let (place, offset) = self.current_at(header)?;
        self.slots[place].read(offset, body)
    }

    // UPDATE BINARY: the data overwrite the current file from the offset on.
    pub(super) fn update(&mut self, header: Header, body: &[u8]) -> Result<(), Status>
        ensures { gives self.new (λ _. []) result ≡ update_binary self.old header.p1 header.p2 body.now }
    {
        let (place, offset) = self.current_at(header)?;
        self.slots[place].update(offset, body)
    }
}
