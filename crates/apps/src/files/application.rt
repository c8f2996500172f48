ghost use Rattle.apps.specs.Files.{files_run};
ghost use Rattle.apps.specs.FileValues.{files_app};
ghost use Rattle.apps.specs.FileReplies.{Answered, good_run};

use crate::answer::write;
use crate::files::Files;
use apdu::{Application, Header, Status};

// The class of the commands of files, and their instructions.
const CLASS: u8 = 0x00;

const SELECT: u8 = 0xa4;

const READ_BINARY: u8 = 0xb0;

const UPDATE_BINARY: u8 = 0xd6;

impl Files {
    // Runs a command: the count of answer bytes, which open the buffer, or the status that refuses it.
    fn obey(&mut self, header: Header, body: &[u8], buffer: &mut [u8; 256]) -> Result<usize, Status>
        ensures { Answered (files_run self.old header.cla header.ins header.p1 header.p2 body.now)
            self.new result buffer.old buffer.new }
    {
        if header.cla != CLASS {
            return Err(Status::unknown_class());
        }
        match header.ins {
            SELECT => Ok(write(&self.select(header, body)?, buffer)),
            READ_BINARY => Ok(write(self.read(header, body)?, buffer)),
            UPDATE_BINARY => self.update(header, body).map(|()| 0),
            _ => Err(Status::unknown_instruction()),
        }
    }
}

impl Application for Files {
    ghost means = { files_app };

    ghost short = { λ s cla ins p1 p2 body h. (good_run s cla ins p1 p2 body).0 };

    ghost lawful = { λ s cla ins p1 p2 body h. (good_run s cla ins p1 p2 body).1 };

    fn run(&mut self, header: Header, body: &[u8], buffer: &mut [u8; 256]) -> (usize, Status) {
        match self.obey(header, body, buffer) {
            Ok(count) => (count, Status::done()),
            Err(status) => (0, status),
        }
    }

    fn reset(&mut self) {
        self.current = None;
    }
}
