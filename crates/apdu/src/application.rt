ghost use Rattle.std.specs.Prelude.{◌≡◌, length};
ghost use Rattle.apdu.specs.Applications.{App, ShortAnswers, LawfulAnswers, opened};

use crate::header::Header;
use crate::status::Status;

// An application of the card, by what it means: a state, a run and a reset. A run refuses only by its status.
pub trait Application {
    ghost means: { App Self };

    // Runs a command: the count of answer bytes, which open the buffer, and the status.
    fn run(&mut self, header: Header, body: &[u8], buffer: &mut [u8; 256]) -> (usize, Status)
        ensures state { means.state self.new ≡ (means.runs (means.state self.old) header.cla header.ins header.p1 header.p2 body.now).state }
        ensures answer { buffer.new ≡ opened (means.runs (means.state self.old) header.cla header.ins header.p1 header.p2 body.now).reply.answer buffer.old }
        ensures count { result.0 ≡ length (means.runs (means.state self.old) header.cla header.ins header.p1 header.p2 body.now).reply.answer }
        ensures status { result.1 ≡ (means.runs (means.state self.old) header.cla header.ins header.p1 header.p2 body.now).reply.status };

    // A warm reset of the card.
    fn reset(&mut self)
        ensures { means.state self.new ≡ means.resets (means.state self.old) };

    ghost short: { ShortAnswers means };

    ghost lawful: { LawfulAnswers means };
}
