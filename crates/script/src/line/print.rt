ghost use Rattle.std.specs.Prelude.{◌≡◌, length};
ghost use Rattle.std.specs.Option.{option_map};
ghost use Rattle.script.specs.Lines.{link, damage, reset, printed, protocol_text, style_text};
ghost use Rattle.script.specs.Printing.{line_with, sent_within, count_of, copied_of};
ghost use Rattle.script.specs.Texts.{room_for, copied};

use crate::line::{COMMAND_MAX, LINE_MAX, Line, Protocol, Settings};
use crate::text::{push_hex, push_number};
use arrayvec::ArrayString;
use t0::Style;

fn protocol_text(protocol: Protocol) -> &'static str
    ensures text { result.now ≡ protocol_text protocol }
    ensures len { length result.now ≡ 1 }
{
    match protocol {
        Protocol::T0 => "0",
        Protocol::T1 => "1",
    }
}

fn style_text(style: Style) -> &'static str
    ensures text { result.now ≡ style_text style }
    ensures len { length result.now ≡ 1 }
{
    match style {
        Style::Whole => "w",
        Style::Bytewise => "b",
    }
}

fn link_text(settings: Settings) -> ArrayString<LINE_MAX>
    ensures { result.bytes ≡ printed (link settings) }
{
    let mut text = ArrayString::new();
    text.push_str("link,");
    text.push_str(protocol_text(settings.protocol));
    text.push_str(",");
    push_number(&mut text, settings.ifsc);
    text.push_str(",");
    push_number(&mut text, settings.ifsd);
    text.push_str(",");
    push_number(&mut text, settings.waits);
    text.push_str(",");
    text.push_str(style_text(settings.style));
    text
}

fn damage_text(position: u16) -> ArrayString<LINE_MAX>
    ensures { result.bytes ≡ printed (damage position) }
{
    let mut text = ArrayString::new();
    text.push_str("damage,");
    push_number(&mut text, position);
    text
}

// None where the command has more than 300 bytes.
fn send_text(program: u8, command: &[u8]) -> Option<ArrayString<LINE_MAX>>
    ensures { option_map (λ text. text.bytes) result ≡ option_map printed (sent_within program command.now) }
{
    if command.len() > COMMAND_MAX {
        return None;
    }
    let mut text = ArrayString::new();
    text.push_str("send,");
    push_number(&mut text, program);
    text.push_str(",");
    push_hex(&mut text, command);
    Some(text)
}

fn reset_text(program: u8) -> ArrayString<LINE_MAX>
    ensures { result.bytes ≡ printed (reset program) }
{
    let mut text = ArrayString::new();
    text.push_str("reset,");
    push_number(&mut text, program);
    text
}

// The text of a line; none where the command does not fit the line.
fn line_text(line: Line, command: &[u8]) -> Option<ArrayString<LINE_MAX>>
    ensures { option_map (λ text. text.bytes) result ≡ option_map printed (line_with line command.now) }
{
    match line {
        Line::Link(settings) => Some(link_text(settings)),
        Line::Damage(position) => Some(damage_text(position)),
        Line::Send { program, length } => {
            if command.len() != length as usize {
                return None;
            }
            send_text(program, command)
        }
        Line::Reset { program } => Some(reset_text(program)),
    }
}

// Copies a text to the front of a memory, where it has room, and says how long the text is.
fn copy_to(text: &str, out: &mut [u8]) -> Option<usize>
    ensures count { result ≡ room_for text.now out.old }
    ensures bytes { out.new ≡ copied text.now out.old }
{
    if out.len() < text.len() {
        return None;
    }
    out[..text.len()].copy_from_slice(text.as_bytes());
    Some(text.len())
}

// Writes a line, without an LF, to the front of a memory, and says how long it is. None, and nothing written, where the memory is too short, or where the command of a send has not the line's length or more than 300 bytes.
pub fn print_line(line: Line, command: &[u8], out: &mut [u8]) -> Option<usize>
    ensures count { result ≡ count_of (line_with line command.now) out.old }
    ensures bytes { out.new ≡ copied_of (line_with line command.now) out.old }
{
    copy_to(line_text(line, command)?.as_str(), out)
}
