ghost use Rattle.std.specs.Prelude.{◌≡◌, if◌then◌else◌, Some, None};
ghost use Rattle.std.specs.Option.{option_map};
ghost use Rattle.script.specs.Hex.{is_hex, hex_value, command_of};

use crate::line::COMMAND_MAX;
use arrayvec::ArrayVec;

// The number of a hex digit.
fn hex_value(digit: u8) -> Option<u8>
    ensures { result ≡ (if is_hex digit then Some (hex_value digit) else None) }
{
    match digit {
        b'0'..=b'9' => Some(digit - b'0'),
        b'A'..=b'F' => Some(digit - b'A' + 10),
        _ => None,
    }
}

// Reads the hex digits of a command. More digits than a command has are refused before any is read.
pub fn read_command(digits: &[u8]) -> Option<ArrayVec<u8, COMMAND_MAX>>
    ensures { option_map (λ command. command.items) result ≡ command_of digits.now }
{
    if digits.len() > 2 * COMMAND_MAX {
        return None;
    }
    let mut command = ArrayVec::new();
    let mut rest = digits;
    while let [high, low, after @ ..] = rest {
        command.push(hex_value(*high)? * 16 + hex_value(*low)?);
        rest = after;
    }
    if rest.is_empty() { Some(command) } else { None }
}
