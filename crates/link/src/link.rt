ghost use Rattle.std.specs.Prelude.{[]};
ghost use Rattle.apdu.specs.Applications.{App as Means};
ghost use Rattle.link.specs.Meaning.{Linked, sent, was_reset, linked};
ghost use Rattle.link.specs.Meant.{meant_order};
ghost use Rattle.link.specs.Results.{LinkSends, LinkResets, LinkTakes};

use crate::turn::Order;
use apdu::{Application, Refusal, Status};
use wire::{Record, Traced};

// What stands between a box and an application on a card, by what it means: it takes turns, one at a time. A turn sends a
// command or resets the card; a refusal leaves the answer buffer as it was.
pub trait Link {
    type App: Application;

    ghost meaning: { (a : Means Self.App) → Self → Linked a.State };

    // One turn that sends a command: the count of answer bytes, which open the answer buffer, and the status; or a refusal. The
    // characters that crossed are noted in the trace.
    fn send(
        &mut self,
        command: &[u8],
        answer: &mut [u8],
        trace: &mut Record<'_, Traced>,
    ) -> Result<(usize, Status), Refusal>
        ensures { LinkSends (sent Self.App.Application.means (meaning Self.App.Application.means self.old) command.now answer.old) (meaning Self.App.Application.means self.new) answer.new result trace.old trace.new };

    // One turn that resets the card.
    fn reset(&mut self, trace: &mut Record<'_, Traced>) -> Result<(), Refusal>
        ensures { LinkResets (was_reset Self.App.Application.means (meaning Self.App.Application.means self.old) []) (meaning Self.App.Application.means self.new) result trace.old trace.new };
}

// One turn over a link, a send or a reset. For a command that was done the count of answer bytes, which open the answer
// buffer, and the status; None for a reset that was done; or a refusal. The characters that crossed are noted in the trace.
pub fn take<L: Link>(
    link: &mut L,
    order: Order<'_>,
    answer: &mut [u8],
    trace: &mut Record<'_, Traced>,
) -> Result<Option<(usize, Status)>, Refusal>
    ensures { LinkTakes (linked L.App.Application.means (L.meaning L.App.Application.means link.old) (meant_order order.entry) answer.old) (L.meaning L.App.Application.means link.new) answer.new result trace.old trace.new }
{
    match order {
        Order::Send(command) => link.send(command, answer, trace).map(Some),
        Order::Reset => link.reset(trace).map(|_| None),
    }
}
