ghost use Rattle.std.specs.Prelude.{◌≡◌, ◌+◌, ◌≤◌, take};
ghost use Rattle.apdu.specs.Commands.{wanted};
ghost use Rattle.t0.specs.Cards.{runs_inward, runs_outward};
ghost use Rattle.t0.specs.CardValues.{Becomes, held_of, answer_of, served, written};

use crate::card::{Answer, Card, Kept};
use crate::p3::as_p3;
use apdu::{Application, Header, Status};

// The first bytes of the data.
fn opening(body: &[u8; 255], count: u8) -> &[u8]
    ensures { result.now ≡ take count body.now }
{
    &body[..count as usize]
}

// The place of the last byte that P3 wants, which is one less than their count; 00 wants 256.
fn last_wanted(p3: u8) -> u8
    ensures { result + 1 ≡ wanted p3 }
{
    p3.wrapping_sub(1)
}

impl Answer {
    // The answer of an application that wrote so many bytes, if it wrote any.
    fn written(count: usize, status: Status) -> Option<Answer>
        requires { count ≤ 256 }
        ensures { result ≡ written count status }
    {
        let last = count.checked_sub(1)?;
        Some(Answer {
            last: last as u8,
            status,
        })
    }

    // How many bytes it has.
    pub(super) fn count(self) -> usize
        ensures { result ≡ self.last + 1 }
    {
        self.last as usize + 1
    }
}

impl<A: Application> Card<A> {
    // P3 wants bytes of an answer: they are given where there are as many; else 6C says how many there are, and this is held.
    pub(super) fn serve(&mut self, ins: u8, p3: u8, answer: Answer, kept: Kept)
        ensures { Becomes A.Application.means self.old self.new (λ s c. served s c.state ins (wanted p3) (answer_of self.old.answer answer) (held_of self.old.answer kept)) }
    {
        let last = last_wanted(p3);
        if last <= answer.last {
            self.give(ins, last, answer.status);
        } else {
            self.close(kept, 0x6c, answer.last + 1);
        }
    }

    // Runs an outward command.
    pub(super) fn run_outward(&mut self, header: Header, p3: u8)
        ensures { Becomes A.Application.means self.old self.new (λ s c. runs_outward A.Application.means s c.state header p3) }
    {
        let (count, status) = self.app.run(header, &[], &mut self.answer);
        match Answer::written(count, status) {
            Some(answer) => self.serve(header.ins, p3, answer, Kept::By6C(header, answer)),
            None => self.conclude(status),
        }
    }

    // Runs an inward command on the first bytes of the data.
    pub(super) fn run_inward(&mut self, header: Header, count: u8)
        ensures { Becomes A.Application.means self.old self.new (λ s c. runs_inward A.Application.means s c.state header (take count self.old.body)) }
    {
        let (count, status) = self
            .app
            .run(header, opening(&self.body, count), &mut self.answer);
        match Answer::written(count, status) {
            Some(answer) => self.close(Kept::By61(answer), 0x61, as_p3(answer.count())),
            None => self.conclude(status),
        }
    }
}
