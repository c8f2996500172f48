ghost use Rattle.std.specs.Prelude.{◌≡◌};

// Who sent a character.
#[derive(Clone, Copy, Debug, PartialEq, Eq)]
#[repr(u8)]
pub enum Sender {
    Terminal,
    Card,
}

impl Sender {
    ghost use Rattle.wire.specs.Senders.{is_card};

    // Whether it is the card.
    pub fn is_card(self) -> bool
        ensures { result ≡ is_card self }
    {
        matches!(self, Sender::Card)
    }
}

// A character of a trace: whether the card sent it (else the terminal did), its byte, and whether it was damaged on the line. C
// takes it out, and an enum cannot be handed to C, so who sent it is a bool here.
#[derive(Clone, Copy, Debug, PartialEq, Eq)]
#[repr(C)]
pub struct Traced {
    pub by_card: bool,
    pub byte: u8,
    pub damaged: bool,
}

impl Traced {
    ghost use Rattle.wire.specs.Senders.{sender_of};

    // Who sent it.
    pub fn sender(self) -> Sender
        ensures { result ≡ sender_of self }
    {
        if self.by_card {
            Sender::Card
        } else {
            Sender::Terminal
        }
    }
}
