ghost use Rattle.std.specs.Prelude.{◌≡◌, slice_index};
ghost use Rattle.apdu.specs.Commands.{reserved, inward};

// The first four bytes of a command, which say what is to be done.
#[derive(Clone, Copy, Debug, PartialEq, Eq)]
pub struct Header {
    pub cla: u8,
    pub ins: u8,
    pub p1: u8,
    pub p2: u8,
}

// The four bytes in their order: CLA, INS, P1, P2.
impl From<[u8; 4]> for Header {
    ghost from_gives = { λ bytes header. header ≡ record { cla = slice_index bytes 0; ins = slice_index bytes 1; p1 = slice_index bytes 2; p2 = slice_index bytes 3 } };

    fn from([cla, ins, p1, p2]: [u8; 4]) -> Header {
        Header { cla, ins, p1, p2 }
    }
}

impl Header {
    // Whether the standard keeps its CLA or INS for itself.
    pub fn is_reserved(self) -> bool
        ensures { result ≡ reserved self.cla self.ins }
    {
        self.cla == 0xff || matches!(self.ins, 0x60..=0x6f | 0x90..=0x9f | 0xc0)
    }

    // Whether commands of its INS carry their data to the card.
    pub fn is_inward(self) -> bool
        ensures { result ≡ inward self.ins }
    {
        matches!(self.ins, 0x04 | 0x20 | 0x44 | 0x52 | 0x54 | 0xa4 | 0xd6)
    }
}
