ghost use Rattle.std.specs.Prelude.{◌≡◌, Some};
ghost use Rattle.apdu.specs.Commands.{command_of, after_header, with_data};
ghost use Rattle.apdu.specs.Judging.{read, verdict, judged, checked, parts};

use crate::command::{Case, Command};
use crate::header::Header;
use crate::refusal::Refusal;

// Reads a command off its first four bytes and what follows them; None where it is malformed.
pub fn read_command(bytes: &[u8]) -> Option<Command<'_>>
    ensures { read result ≡ command_of bytes.now }
{
    let [cla, ins, p1, p2, rest @ ..] = bytes else {
        return None;
    };
    let header = Header {
        cla: *cla,
        ins: *ins,
        p1: *p1,
        p2: *p2,
    };
    header.followed_by(rest)
}

impl Header {
    // The command of this header, its case by what follows it.
    fn followed_by(self, rest: &[u8]) -> Option<Command<'_>>
        ensures { read result ≡ after_header self.cla self.ins self.p1 self.p2 rest.now }
    {
        match rest {
            [] => Some(self.with(Case::One, rest, 0)),
            [le] => Some(self.with(Case::Two, &rest[0..0], wanted(*le))),
            [lc, body @ ..] => {
                let lc = *lc as usize;
                if lc == 0 {
                    None
                } else if body.len() == lc {
                    Some(self.with(Case::Three, body, 0))
                } else if body.len() == lc + 1 {
                    Some(self.with(Case::Four, &body[0..lc], wanted(body[lc])))
                } else {
                    None
                }
            }
        }
    }

    fn with(self, case: Case, body: &[u8], ne: usize) -> Command<'_>
        ensures { parts result ≡ record { kind = case; cla = self.cla; ins = self.ins; p1 = self.p1; p2 = self.p2; body = body.now; ne = ne } }
    {
        Command {
            case,
            header: self,
            body,
            ne,
        }
    }
}

// A count of bytes as one byte gives it: 00 means 256.
pub fn wanted(le: u8) -> usize
    ensures { result ≡ Rattle.apdu.specs.Commands.wanted le }
{
    if le == 0 { 256 } else { le as usize }
}

impl Case {
    // Whether a command of this case may go this way.
    fn agrees(self, inward: bool) -> bool
        ensures { result ≡ Rattle.apdu.specs.Commands.agrees inward self }
    {
        match self {
            Case::Two => !inward,
            Case::One | Case::Three | Case::Four => inward,
        }
    }
}

// Judges a command for an answer buffer of this length: refusals 1, 2, 3 and 4 in that order, or its parts.
pub fn judge(bytes: &[u8], room: usize) -> Result<Command<'_>, Refusal>
    ensures { verdict result ≡ judged bytes.now room }
{
    let command = read_command(bytes).ok_or(Refusal::Malformed)?;
    check(command, room)
}

// Refusals 2, 3 and 4 of a command that was read.
fn check(command: Command<'_>, room: usize) -> Result<Command<'_>, Refusal>
    ensures { verdict result ≡ checked room (Some (parts command.entry)) }
{
    if command.header.is_reserved() {
        return Err(Refusal::Reserved);
    }
    if !command.case.agrees(command.header.is_inward()) {
        return Err(Refusal::Direction);
    }
    if room < command.ne {
        return Err(Refusal::Room);
    }
    Ok(command)
}
