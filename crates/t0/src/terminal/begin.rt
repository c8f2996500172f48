ghost use Rattle.std.specs.Prelude.{◌≡◌, cond};
ghost use Rattle.apdu.specs.Judging.{parts, judged};
ghost use Rattle.apdu.specs.Statuses.{done};
ghost use Rattle.t0.specs.Terminals.{sends, fetches, heading_for};
ghost use Rattle.t0.specs.Starts.{started, start_of, fetched_by, discarded_by};

use crate::p3::as_p3;
use crate::terminal::{Holding, Kind, Phase, Ready, Token, Waiting};
use apdu::{Command, Header, Refusal, Status, judge};

impl Waiting {
    // A terminal that begins a header.
    pub(super) fn heading(header: Header, p3: u8, kind: Kind, ne: usize, total: usize) -> Waiting
        ensures { result ≡ heading_for header p3 kind ne total }
    {
        Waiting {
            header,
            p3,
            kind,
            ne,
            total,
            due: total,
            phase: Phase::Heading(0),
        }
    }
}

impl Ready {
    // A terminal that may send a command.
    pub fn new() -> Ready
        ensures { result ≡ record {} }
    {
        Ready {}
    }

    // Begins a command, or gives the terminal back with refusal 1, 2 or 3.
    pub fn send(self, command: &[u8]) -> Result<Waiting, (Ready, Refusal)>
        ensures { started result ≡ start_of (judged command.now 256) }
    {
        match judge(command, 256) {
            Ok(command) => Ok(self.begin(command)),
            Err(refusal) => Err((self, refusal)),
        }
    }

    // Begins a command that passed.
    pub(crate) fn begin(self, command: Command<'_>) -> Waiting
        ensures { result ≡ sends (parts command.entry) }
    {
        let header = command.header;
        let (kind, total) = if header.is_inward() {
            (Kind::Inward, command.body.len())
        } else {
            (Kind::Outward, command.ne)
        };
        Waiting::heading(header, as_p3(total), kind, command.ne, total)
    }
}

impl Token {
    // Asks for the held answer: as many bytes as are wanted, or all if fewer. Where none is wanted, it gives all back.
    pub fn fetch(self, holding: Holding) -> Result<Waiting, (Holding, Token)>
        ensures { result ≡ fetched_by self holding }
    {
        if self.ne == 0 {
            return Err((holding, self));
        }
        let Token { cla, ne, held } = self;
        let total = held.min(ne);
        let header = Header {
            cla,
            ins: 0xc0,
            p1: 0,
            p2: 0,
        };
        Ok(Waiting::heading(header, as_p3(total), Kind::Response, ne, total))
    }

    // Leaves the held answer to be dropped by the next header, where none of it is wanted, and reports 9000. Where some is
    // wanted, it gives all back.
    pub fn discard(self, holding: Holding) -> Result<(Ready, Status), (Holding, Token)>
        ensures { result ≡ discarded_by self holding }
    {
        if self.ne > 0 {
            return Err((holding, self));
        }
        self.forfeit();
        Ok((Ready {}, Status::done()))
    }

    // Spends the token, where nothing of the answer is fetched.
    pub(crate) fn forfeit(self)
        ensures { Unit {0} }
    {
        let Token {
            cla: _,
            ne: _,
            held: _,
        } = self;
    }
}
