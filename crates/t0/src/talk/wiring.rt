ghost use Rattle.std.specs.Prelude.{◌≡◌};
ghost use Rattle.apdu.specs.Judging.{parts};
ghost use Rattle.t0.specs.CardValues.{meant};
ghost use Rattle.t0.specs.Conversations.{converse, most};
ghost use Rattle.t0.specs.Talks.{Converses};
ghost use Rattle.t0.specs.Terminals.{sends};
ghost use Rattle.t0.specs.Wired.{wired_of, joined, after_reset};

use crate::card::Card;
use crate::talk::{Failure, WiredCard, converse};
use apdu::{Application, Command, Status};
use wire::{Line, Record, Traced};

impl<A: Application, L: Line> WiredCard<A, L> {
    // This card at the end of this line.
    pub fn new(card: Card<A>, line: L) -> WiredCard<A, L>
        ensures { wired_of A.Application.means L.Line.damage result ≡ record { settings = card.settings; card = meant A.Application.means card; coming = L.Line.damage line } }
    {
        WiredCard { card, line }
    }

    // The card and the line apart again.
    pub fn into_parts(self) -> (Card<A>, L)
        ensures { wired_of A.Application.means L.Line.damage self ≡ record { settings = result.0.settings; card = meant A.Application.means result.0; coming = L.Line.damage result.1 } }
    {
        (self.card, self.line)
    }

    // A warm reset of the card; nothing crosses the line.
    pub fn reset(&mut self)
        ensures { wired_of A.Application.means L.Line.damage self.new ≡ after_reset A.Application.means (wired_of A.Application.means L.Line.damage self.old) }
    {
        self.card.reset();
    }

    // The whole conversation of a command that passed.
    pub fn converse(
        &mut self,
        command: Command<'_>,
        staged: &mut [u8; 256],
        trace: &mut Record<'_, Traced>,
    ) -> Result<(usize, Status), Failure>
        ensures { let old = wired_of A.Application.means L.Line.damage self.old in Converses (converse A.Application.means old.settings (parts command.entry).body most (joined (sends (parts command.entry)) old staged.old)) result old (wired_of A.Application.means L.Line.damage self.new) staged.new trace.old trace.new }
    {
        converse(&mut self.card, &mut self.line, command, staged, trace)
    }
}
