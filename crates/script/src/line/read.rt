ghost use Rattle.std.specs.Prelude.{◌≡◌};
ghost use Rattle.std.specs.Option.{option_map};
ghost use Rattle.script.specs.Lines.{line_of, send_of, after_word, told, held, apart};

use crate::line::field::{cut, read_byte, read_number};
use crate::line::hex::read_command;
use crate::line::link::read_settings;
use crate::line::{COMMAND_MAX, Line};
use arrayvec::ArrayVec;

// What follows `send,`.
fn read_send(text: &[u8]) -> Option<(Line, ArrayVec<u8, COMMAND_MAX>)>
    ensures { result ≡ option_map apart (send_of text.now) }
{
    let (program, digits) = cut(text)?;
    let program = read_byte(program, 0, 255)?;
    let command = read_command(digits)?;
    let length = command.len() as u16;
    Some((Line::Send { program, length }, command))
}

// What follows a word and its comma.
fn read_after(word: &[u8], text: &[u8]) -> Option<(Line, ArrayVec<u8, COMMAND_MAX>)>
    ensures { result ≡ option_map apart (after_word word.now text.now) }
{
    match word {
        b"link" => Some((Line::Link(read_settings(text)?), ArrayVec::new())),
        b"damage" => Some((Line::Damage(read_number(text, 0, 65535)?), ArrayVec::new())),
        b"send" => read_send(text),
        b"reset" => {
            let program = read_byte(text, 0, 255)?;
            Some((Line::Reset { program }, ArrayVec::new()))
        }
        _ => None,
    }
}

// One line, given without its LF, and the command that it sends: only a send has one.
pub(crate) fn parse(text: &[u8]) -> Option<(Line, ArrayVec<u8, COMMAND_MAX>)>
    ensures { result ≡ option_map apart (line_of text.now) }
{
    let (word, rest) = cut(text)?;
    read_after(word, rest)
}

// Reads one line, given without its LF. The command of a send opens the memory; any other line, and a bad one, leaves the memory as it was.
pub fn read_line(text: &[u8], memory: &mut [u8; 300]) -> Option<Line>
    ensures line { result ≡ option_map told (line_of text.now) }
    ensures command { memory.new ≡ held (line_of text.now) memory.old }
{
    let (line, command) = parse(text)?;
    memory[..command.len()].copy_from_slice(&command);
    Some(line)
}
