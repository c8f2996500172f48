ghost use Rattle.std.specs.Prelude.{◌≡◌, ◌+◌, ◌++◌, take};
ghost use Rattle.t0.specs.Cards.{says, nothing};
ghost use Rattle.t0.specs.CardValues.{Becomes, held_of, pending_of};
ghost use Rattle.t0.specs.Procedures.{closes, moves_out, says_status};

use crate::card::{Card, Giving, Kept, Out, Receiving, Then};
use apdu::{Application, Status};

impl<A: Application> Card<A> {
    // The command ends with these characters, after the set number of bytes 60.
    fn say(&mut self, kept: Kept, then: Then)
        ensures { Becomes A.Application.means self.old self.new (λ s c. says c.state (held_of self.old.answer kept) (pending_of s self.old.answer (record { waits = s.waits; then = then }))) }
    {
        self.receiving = Receiving::Nothing;
        self.kept = kept;
        self.out = Out::after_waits(self.settings, then);
    }

    // The command ends with SW1 and SW2.
    pub(super) fn close(&mut self, kept: Kept, sw1: u8, sw2: u8)
        ensures { Becomes A.Application.means self.old self.new (λ s c. says c.state (held_of self.old.answer kept) (closes s sw1 sw2)) }
    {
        self.say(kept, Then::Close(sw1, sw2));
    }

    // The command ends with a status, and nothing is held.
    pub(super) fn conclude(&mut self, status: Status)
        ensures { Becomes A.Application.means self.old self.new (λ s c. says c.state nothing (says_status s status)) }
    {
        self.close(Kept::Nothing, status.sw1(), status.sw2());
    }

    // The command ends with the answer bytes up to the last one and a status, and nothing is held.
    pub(super) fn give(&mut self, ins: u8, last: u8, status: Status)
        ensures { Becomes A.Application.means self.old self.new (λ s c. says c.state nothing (moves_out s ins (take (last + 1) self.old.answer) ++ says_status s status)) }
    {
        let giving = Giving {
            ins,
            at: 0,
            last,
            status,
        };
        self.say(Kept::Nothing, Then::Announce(giving));
    }
}
