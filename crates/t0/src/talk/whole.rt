ghost use Rattle.std.specs.Prelude.{◌≡◌, [], Ok};
ghost use Rattle.apdu.specs.Judging.{parts};
ghost use Rattle.t0.specs.Conversations.{held, converse, then_fetch, most};
ghost use Rattle.t0.specs.Talks.{Converses, settled, end_of};
ghost use Rattle.t0.specs.Terminals.{sends};
ghost use Rattle.t0.specs.Wired.{wiring, joined, left_held};

use crate::card::Card;
use crate::talk::speak::talk;
use crate::talk::{Ended, Failure};
use crate::terminal::{Holding, Ready, Token};
use apdu::{Application, Command, Status};
use wire::{Line, Record, Traced};

// How a command is settled by the end of its last conversation; an answer that is still held then breaks the protocol.
fn settle(ended: Ended) -> Result<(usize, Status), Failure>
    ensures { result ≡ settled (end_of (Ok ended)) }
{
    match ended {
        Ended::Done(count, status) => Ok((count, status)),
        Ended::Held(_, token) => {
            token.forfeit();
            Err(Failure::Broken)
        }
    }
}

// After 61 the held answer is discarded where Ne is 0, and 9000 is reported; else it is fetched.
fn take_held<A: Application, L: Line>(
    card: &mut Card<A>,
    line: &mut L,
    holding: Holding,
    token: Token,
    body: &[u8],
    staged: &mut [u8; 256],
    trace: &mut Record<'_, Traced>,
) -> Result<(usize, Status), Failure>
    ensures { let old = wiring A.Application.means L.Line.damage card.old line.old in Converses (then_fetch A.Application.means old.settings body.now most (left_held token old staged.old) (held token)) result old (wiring A.Application.means L.Line.damage card.new line.new) staged.new trace.old trace.new }
{
    let (holding, token) = match token.discard(holding) {
        Ok((_, status)) => return Ok((0, status)),
        Err(back) => back,
    };
    match token.fetch(holding) {
        Ok(start) => settle(talk(card, line, start, body, staged, trace)?),
        Err((_, token)) => {
            token.forfeit();
            Err(Failure::Broken)
        }
    }
}

// The whole conversation of a command that passed, between a terminal and a card over a line, both lent for it.
pub fn converse<A: Application, L: Line>(
    card: &mut Card<A>,
    line: &mut L,
    command: Command<'_>,
    staged: &mut [u8; 256],
    trace: &mut Record<'_, Traced>,
) -> Result<(usize, Status), Failure>
    ensures { let old = wiring A.Application.means L.Line.damage card.old line.old in Converses (converse A.Application.means old.settings (parts command.entry).body most (joined (sends (parts command.entry)) old staged.old)) result old (wiring A.Application.means L.Line.damage card.new line.new) staged.new trace.old trace.new }
{
    let start = Ready::new().begin(command);
    match talk(card, line, start, command.body, staged, trace)? {
        Ended::Done(count, status) => Ok((count, status)),
        Ended::Held(holding, token) => take_held(
            card,
            line,
            holding,
            token,
            command.body,
            staged,
            trace,
        ),
    }
}
