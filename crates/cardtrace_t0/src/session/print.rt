ghost use Rattle.std.specs.Prelude.{◌≡◌, ◌++◌, OnOk};
ghost use Rattle.link.specs.Meaning.{linked};
ghost use Rattle.link.specs.Meant.{meant_order};
ghost use Rattle.cardtrace_t0.specs.Traces.{free, character_lines, turn_lines};

use crate::session::Trouble;
use link::{Link, Order, take};
use script::trace::{TurnLabel, character_line, result_line};
use std::alloc::AllocError;
use wire::{Record, Traced};

// The places of the trace of one turn: more than any turn has characters where at most 64 are damaged.
const TRACE_ROOM: usize = 16384;

// An unused place.
const BLANK: Traced = Traced {
    by_card: false,
    byte: 0,
    damaged: false,
};

// Adds the lines of characters to the text.
fn write_characters(turn: u64, characters: &[Traced], out: &mut Vec<u8>) -> Result<(), AllocError>
    ensures { OnOk result (out.new.items ≡ out.old.items ++ character_lines turn characters.now) }
{
    for character in characters {
        out.extend_from_slice(character_line(turn, *character).as_bytes())?;
    }
    Ok(())
}

// Plays a turn over a link, and adds what it prints to the text.
pub(crate) fn play_turn<L: Link>(
    link: &mut L,
    label: TurnLabel,
    order: Order<'_>,
    out: &mut Vec<u8>,
) -> Result<(), Trouble>
    ensures after { L.meaning L.App.Application.means link.new ≡ (linked L.App.Application.means (L.meaning L.App.Application.means link.old) (meant_order order.entry) free).after }
    ensures text { OnOk result (out.new.items ≡ out.old.items ++ turn_lines label.turn label.program (linked L.App.Application.means (L.meaning L.App.Application.means link.old) (meant_order order.entry) free)) }
{
    let mut answer = [0u8; 256];
    let mut places = [BLANK; TRACE_ROOM];
    let mut trace = Record::new(&mut places);
    let result = take(link, order, &mut answer, &mut trace);
    let count = trace.count() as usize;
    let characters = places.get(..count).ok_or(Trouble::LongTrace)?;
    write_characters(label.turn, characters, out)?;
    out.extend_from_slice(result_line(label, result, &answer).as_bytes())?;
    Ok(())
}
