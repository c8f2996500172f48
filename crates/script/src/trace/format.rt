ghost use Rattle.std.specs.Prelude.{◌≡◌, ◌+◌, ◌≤◌, [], ◌∷◌, ◌++◌, length};
ghost use Rattle.std.specs.Option.{option_map};
ghost use Rattle.arrayvec.specs.ArrayString.{array_string_len};
ghost use Rattle.wire.specs.Senders.{sender_of};
ghost use Rattle.script.specs.Traces.{letter, outcome_text, character_line, turn_line, turn_text, outcome_of, data_of, bad_line};

use crate::text::{push_hex, push_number};
use crate::trace::{Outcome, TurnLabel};
use apdu::{Refusal, Status};
use arrayvec::ArrayString;
use wire::{Sender, Traced};

// The length of the longest line of a trace: a turn's, with 256 bytes of data.
pub const LINE_ROOM: usize = 546;

fn sender_letter(sender: Sender) -> &'static str
    ensures { result.now ≡ letter sender ∷ [] }
{
    match sender {
        Sender::Terminal => "T",
        Sender::Card => "C",
    }
}

// The line of a character.
pub fn character_line(turn: u64, character: Traced) -> ArrayString<LINE_ROOM>
    ensures { result.bytes ≡ character_line turn (sender_of character) character.byte character.damaged }
{
    let mut text = ArrayString::new();
    text.push_str("c,");
    push_number(&mut text, turn);
    text.push_str(",");
    text.push_str(sender_letter(character.sender()));
    text.push_str(",");
    push_hex(&mut text, &[character.byte]);
    text.push_str(if character.damaged { ",!\n" } else { ",.\n" });
    text
}

// Adds how a turn ended.
fn push_outcome(text: &mut ArrayString<LINE_ROOM>, outcome: Outcome)
    requires { array_string_len text.old + 5 ≤ 546 }
    ensures bytes { text.new.bytes ≡ text.old.bytes ++ outcome_text outcome }
    ensures len { array_string_len text.new ≤ array_string_len text.old + 5 }
{
    match outcome {
        Outcome::Status(sw1, sw2) => push_hex(text, &[sw1, sw2]),
        Outcome::Reset => text.push_str("reset"),
        Outcome::Refusal(n) => {
            text.push_str("!");
            push_number(text, n);
        }
    }
}

// The line of a turn with at most 256 bytes of data.
fn short_line(label: TurnLabel, outcome: Outcome, data: &[u8]) -> ArrayString<LINE_ROOM>
    requires { length «data».now ≤ 256 }
    ensures { result.bytes ≡ turn_line label.turn label.program outcome «data».now }
{
    let mut text = ArrayString::new();
    text.push_str("j,");
    push_number(&mut text, label.turn);
    text.push_str(",");
    push_number(&mut text, label.program);
    text.push_str(",");
    push_outcome(&mut text, outcome);
    text.push_str(",");
    push_hex(&mut text, data);
    text.push_str("\n");
    text
}

// The line of a turn. None for more than 256 bytes of data.
pub fn turn_line(label: TurnLabel, outcome: Outcome, data: &[u8]) -> Option<ArrayString<LINE_ROOM>>
    ensures { option_map (λ text. text.bytes) result ≡ turn_text label.turn label.program outcome «data».now }
{
    if data.len() > 256 {
        return None;
    }
    Some(short_line(label, outcome, data))
}

// The line of a turn by its result: for a command that was done the count of answer bytes, which open the answer buffer, and the
// status; None for a reset that was done; or a refusal.
pub fn result_line(
    label: TurnLabel,
    res: Result<Option<(usize, Status)>, Refusal>,
    answer: &[u8; 256],
) -> ArrayString<LINE_ROOM>
    ensures { result.bytes ≡ turn_line label.turn label.program (outcome_of res) (data_of res answer.now) }
{
    match res {
        Ok(Some((count, status))) => {
            let outcome = Outcome::Status(status.sw1(), status.sw2());
            short_line(label, outcome, &answer[..count.min(256)])
        }
        Ok(None) => short_line(label, Outcome::Reset, &[]),
        Err(refusal) => short_line(label, Outcome::Refusal(u8::from(refusal)), &[]),
    }
}

// The line that ends the trace of a bad script.
pub fn bad_line(line: u64) -> ArrayString<LINE_ROOM>
    ensures { result.bytes ≡ bad_line line }
{
    let mut text = ArrayString::new();
    text.push_str("x,");
    push_number(&mut text, line);
    text.push_str("\n");
    text
}
