ghost use Rattle.std.specs.Prelude.{◌≡◌, false};
ghost use Rattle.t0link.specs.Links.{linked_by, link_of};

use crate::t0_link::T0Link;
use apdu::{Application, Refusal, Status, judge};
use link::Link;
use t0::{Card, Settings, WiredCard};
use wire::{Line, Record, Traced};

impl<A: Application, L: Line> T0Link<A, L> {
    // A link with this card's settings, application and line.
    pub fn new(settings: Settings, app: A, line: L) -> T0Link<A, L>
        ensures { link_of A.Application.means L.Line.damage result ≡ linked_by settings (L.Line.damage line) (A.Application.means.state app) false }
    {
        T0Link {
            wired: WiredCard::new(Card::new(app, settings), line),
            lost: false,
        }
    }
}

impl<A: Application, L: Line> Link for T0Link<A, L> {
    type App = A;

    ghost meaning = { λ a l. link_of a L.Line.damage l };

    fn send(
        &mut self,
        command: &[u8],
        answer: &mut [u8],
        trace: &mut Record<'_, Traced>,
    ) -> Result<(usize, Status), Refusal> {
        let command = judge(command, answer.len())?;
        if self.lost {
            return Err(Refusal::Lost);
        }
        // until the command is done
        self.lost = true;
        let mut staged = [0u8; 256];
        let (count, status) = self.wired.converse(command, &mut staged, trace)?;
        self.lost = false;
        answer[0..count].copy_from_slice(&staged[0..count]);
        Ok((count, status))
    }

    fn reset(&mut self, trace: &mut Record<'_, Traced>) -> Result<(), Refusal> {
        if self.lost {
            return Err(Refusal::Lost);
        }
        self.wired.reset();
        Ok(())
    }
}
