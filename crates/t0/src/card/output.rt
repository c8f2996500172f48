ghost use Rattle.std.specs.Prelude.{◌≡◌, ℕ, List, length};
ghost use Rattle.t0.specs.Cards.{next_of, rest_of};
ghost use Rattle.t0.specs.Procedures;
ghost use Rattle.t0.specs.CardValues.{pending_of, given_rest, has_some};

use crate::card::{Giving, Out, Then};
use crate::settings::{Settings, Style};

// The procedure byte that has bytes moved: INS for all, INS with all bits inverted for one.
fn mover(style: Style, ins: u8) -> u8
    ensures { result ≡ Rattle.t0.specs.Procedures.mover style ins }
{
    match style {
        Style::Whole => ins,
        Style::Bytewise => !ins,
    }
}

impl Giving {
    // What follows the byte that is next.
    fn after(self, settings: Settings) -> Out
        ensures { (memory : List ℕ) → length memory ≡ 256 → pending_of settings memory result ≡ given_rest settings memory self }
    {
        if self.at >= self.last {
            return Out::after_waits(settings, Then::Close(self.status.sw1(), self.status.sw2()));
        }
        let next = Giving {
            at: self.at + 1,
            ..self
        };
        match settings.style() {
            Style::Whole => Out::at_once(Then::Give(next)),
            Style::Bytewise => Out::after_waits(settings, Then::Announce(next)),
        }
    }
}

impl Out {
    // This, with no bytes 60 before it.
    fn at_once(then: Then) -> Out
        ensures { result ≡ record { waits = 0; then = then } }
    {
        Out { waits: 0, then }
    }

    // Nothing is to be sent.
    pub(super) fn nothing() -> Out
        ensures { result ≡ record { waits = 0; then = Then.Nothing } }
    {
        Out::at_once(Then::Nothing)
    }

    // A procedure byte and what follows it, after the set number of bytes 60.
    pub(super) fn after_waits(settings: Settings, then: Then) -> Out
        ensures { result ≡ record { waits = settings.waits; then = then } }
    {
        Out {
            waits: settings.waits(),
            then,
        }
    }

    // Whether anything is to be sent.
    pub(super) fn has_some(self) -> bool
        ensures { result ≡ has_some self }
    {
        self.waits > 0 || self.then != Then::Nothing
    }

    // The next character, if there is one, and what is still to be sent after it.
    pub(super) fn advance(self, settings: Settings, answer: &[u8; 256]) -> (Option<u8>, Out)
        ensures gave { result.0 ≡ next_of (pending_of settings answer.now self) }
        ensures left { pending_of settings answer.now result.1 ≡ rest_of (pending_of settings answer.now self) }
    {
        if self.waits > 0 {
            let out = Out {
                waits: self.waits - 1,
                ..self
            };
            return (Some(0x60), out);
        }
        match self.then {
            Then::Nothing => (None, self),
            Then::Ask(ins) => (Some(mover(settings.style(), ins)), Out::nothing()),
            Then::Announce(giving) => (
                Some(mover(settings.style(), giving.ins)),
                Out::at_once(Then::Give(giving)),
            ),
            Then::Give(giving) => (Some(answer[giving.at as usize]), giving.after(settings)),
            Then::Close(sw1, sw2) => (Some(sw1), Out::at_once(Then::End(sw2))),
            Then::End(sw2) => (Some(sw2), Out::nothing()),
        }
    }
}
