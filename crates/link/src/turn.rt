ghost use Rattle.std.specs.Prelude.{◌≡◌};
ghost use Rattle.link.specs.Turns.{placed};

// What a turn orders: that a command be sent, given as its bytes, or a warm reset.
#[derive(Clone, Copy, Debug, PartialEq, Eq)]
pub enum Order<'a> {
    Send(&'a [u8]),
    Reset,
}

// A turn of a run as a plain record: tag 0 sends, 1 resets, and any other is a malformed command; the program's number; and
// the command's place in lent bytes, past whose end it is malformed too. C hands it in, so its tag may be any byte.
#[derive(Clone, Copy, Debug, PartialEq, Eq)]
#[repr(C)]
pub struct Turn {
    pub tag: u8,
    pub program: u8,
    pub start: usize,
    pub length: usize,
}

impl Turn {
    ghost use Rattle.link.specs.Meant.{meant_order};
    ghost use Rattle.link.specs.Turns.{ordered};

    // What the turn orders, its command read in place from the lent bytes.
    #[inline]
    pub fn order(self, commands: &[u8]) -> Order<'_>
        ensures { meant_order result ≡ ordered commands.now self }
    {
        match self.tag {
            0 => Order::Send(command_at(commands, self.start, self.length)),
            1 => Order::Reset,
            _ => Order::Send(&[]),
        }
    }
}

// The command at a place in lent bytes; past their end it is empty, which is malformed.
#[inline]
fn command_at(commands: &[u8], start: usize, length: usize) -> &[u8]
    ensures { result.now ≡ placed commands.now start length }
{
    let rest = commands.get(start..).unwrap_or(&[]);
    rest.get(..length).unwrap_or(&[])
}
