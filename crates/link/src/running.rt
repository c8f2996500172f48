ghost use Rattle.std.specs.Prelude.{drop};
ghost use Rattle.link.specs.Meaning.{linked};
ghost use Rattle.link.specs.Runs.{TurnRuns, Runs};
ghost use Rattle.link.specs.Turns.{ordered};

use crate::link::{Link, take};
use crate::refusal::RunRefusal;
use crate::row::Row;
use crate::turn::Turn;
use wire::{Record, Traced};

// One turn of a run: the data buffer from `free` on is its answer buffer, and its row goes to the journal. Gives the first byte
// that is then free.
fn take_turn<L: Link>(
    link: &mut L,
    turn: Turn,
    commands: &[u8],
    data: &mut [u8],
    free: usize,
    journal: &mut Record<'_, Row>,
    trace: &mut Record<'_, Traced>,
) -> usize
    ensures { TurnRuns (linked L.App.Application.means (L.meaning L.App.Application.means link.old) (ordered commands.now turn) (drop free «data».old)) turn.program free «data».old (L.meaning L.App.Application.means link.new) «data».new result journal.old journal.new trace.old trace.new }
{
    let start = free.min(data.len());
    let result = take(link, turn.order(commands), &mut data[start..], trace);
    let row = Row::of(turn.program, free, result);
    journal.note(row);
    free + row.length
}

// Runs turns one after the other over a link. Each has the rest of the data buffer, from the first free byte on, as its answer
// buffer, and a row in the journal. Gives how many bytes of the data buffer are used; or 8, before the first turn, where the
// journal has fewer free places than there are turns.
pub fn run<L: Link>(
    link: &mut L,
    turns: &[Turn],
    commands: &[u8],
    data: &mut [u8],
    journal: &mut Record<'_, Row>,
    trace: &mut Record<'_, Traced>,
) -> Result<usize, RunRefusal>
    ensures { Runs L.App.Application.means (L.meaning L.App.Application.means link.old) (L.meaning L.App.Application.means link.new) turns.now commands.now «data».old «data».new result journal.old journal.new trace.old trace.new }
{
    if journal.free() < turns.len() {
        return Err(RunRefusal::JournalFull);
    }
    let mut free = 0;
    for turn in turns {
        free = take_turn(link, *turn, commands, data, free, journal, trace);
    }
    Ok(free)
}
