ghost use Rattle.std.specs.Prelude.{◌≡◌, ℕ, List, []};
ghost use Rattle.t0.specs.Conversations.{speaks, terminal_speaks, card_speaks, talk, most};
ghost use Rattle.t0.specs.Talks.{Speaks, Talks, spoke_of, kept_in};
ghost use Rattle.t0.specs.Terminals.{hears};
ghost use Rattle.t0.specs.Wired.{wiring, joined};

use crate::card::Card;
use crate::carry::carry;
use crate::talk::{Ended, Failure, Spoke};
use crate::terminal::{Step, Waiting, Want};
use apdu::Application;
use std::ops::ControlFlow;
use wire::{Line, Record, Sender, Traced};

// What the terminal makes of a character that arrived.
fn hear(waiting: Waiting, byte: u8, staged: &mut [u8; 256]) -> Result<Spoke, Failure>
    ensures goes { result ≡ spoke_of (hears waiting waiting.phase byte) }
    ensures bytes { staged.new ≡ kept_in (hears waiting waiting.phase byte) byte staged.old }
{
    match waiting.receive(byte) {
        Step::Next(waiting) => Ok(ControlFlow::Continue(waiting)),
        Step::Keep(waiting, place) => {
            if place < 256 {
                staged[place] = byte;
            }
            Ok(ControlFlow::Continue(waiting))
        }
        Step::Done(_, count, status) => Ok(ControlFlow::Break(Ended::Done(count, status))),
        Step::Held(holding, token) => Ok(ControlFlow::Break(Ended::Held(holding, token))),
        Step::Broken => Err(Failure::Broken),
    }
}

// The terminal sends a character, and the card sees it if it arrives.
fn terminal_speaks<A: Application, L: Line>(
    card: &mut Card<A>,
    line: &mut L,
    waiting: Waiting,
    byte: u8,
    trace: &mut Record<'_, Traced>,
) -> Result<Spoke, Failure>
    ensures { let old = wiring A.Application.means L.Line.damage card.old line.old in (staged : List ℕ) → Speaks (terminal_speaks A.Application.means old.settings [] (joined waiting old staged) byte) result old (wiring A.Application.means L.Line.damage card.new line.new) staged trace.old trace.new }
{
    let arrived = carry(line, Sender::Terminal, byte, trace).ok_or(Failure::Lost)?;
    card.receive(arrived);
    Ok(ControlFlow::Continue(waiting.sent()))
}

// The card sends its next character, and the terminal hears it if it arrives.
fn card_speaks<A: Application, L: Line>(
    card: &mut Card<A>,
    line: &mut L,
    waiting: Waiting,
    staged: &mut [u8; 256],
    trace: &mut Record<'_, Traced>,
) -> Result<Spoke, Failure>
    ensures { let old = wiring A.Application.means L.Line.damage card.old line.old in Speaks (card_speaks A.Application.means old.settings [] (joined waiting old staged.old) old.card.pending) result old (wiring A.Application.means L.Line.damage card.new line.new) staged.new trace.old trace.new }
{
    let byte = card.next().ok_or(Failure::Broken)?;
    let arrived = carry(line, Sender::Card, byte, trace).ok_or(Failure::Lost)?;
    hear(waiting, arrived, staged)
}

// One character between the ends: whose turn it is to speak is what the terminal wants. Past the end of the data there is no
// byte, and 0 stands for it.
fn speak<A: Application, L: Line>(
    card: &mut Card<A>,
    line: &mut L,
    waiting: Waiting,
    body: &[u8],
    staged: &mut [u8; 256],
    trace: &mut Record<'_, Traced>,
) -> Result<Spoke, Failure>
    ensures { let old = wiring A.Application.means L.Line.damage card.old line.old in Speaks (speaks A.Application.means old.settings body.now (joined waiting old staged.old)) result old (wiring A.Application.means L.Line.damage card.new line.new) staged.new trace.old trace.new }
{
    let byte = match waiting.want() {
        Want::Send(byte) => byte,
        Want::SendData(place) => body.get(place).copied().unwrap_or(0),
        Want::Receive => return card_speaks(card, line, waiting, staged, trace),
    };
    terminal_speaks(card, line, waiting, byte, trace)
}

// A conversation between terminal and card over the line, from a command's header to its end.
pub(crate) fn talk<A: Application, L: Line>(
    card: &mut Card<A>,
    line: &mut L,
    start: Waiting,
    body: &[u8],
    staged: &mut [u8; 256],
    trace: &mut Record<'_, Traced>,
) -> Result<Ended, Failure>
    ensures { let old = wiring A.Application.means L.Line.damage card.old line.old in Talks (talk A.Application.means old.settings body.now most (joined start old staged.old)) result old (wiring A.Application.means L.Line.damage card.new line.new) staged.new trace.old trace.new }
{
    let mut waiting = start;
    for _ in 0..16384u16 {
        match speak(card, line, waiting, body, staged, trace)? {
            ControlFlow::Continue(next) => waiting = next,
            ControlFlow::Break(ended) => return Ok(ended),
        }
    }
    Err(Failure::Broken)
}
