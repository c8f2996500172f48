ghost use Rattle.std.specs.Prelude.{◌≡◌, ◌&&◌};
ghost use Rattle.std.specs.Option.{option_map};
ghost use Rattle.script.specs.Fields.{split, both, all_digits, well_led, number};

use std::str;

// The text before the first comma and the text after it, where there is a comma.
pub fn cut(text: &[u8]) -> Option<(&[u8], &[u8])>
    ensures { option_map both result ≡ split text.now }
{
    let comma = text.iter().position(|b| *b == b',')?;
    Some((&text[..comma], &text[comma + 1..]))
}

// Whether there is a first byte, which is a 0 only where it stands alone.
fn is_well_led(text: &[u8]) -> bool
    ensures { result ≡ well_led text.now }
{
    match text {
        [] => false,
        [_] => true,
        [first, ..] => *first != b'0',
    }
}

// Whether a text is a number in plain decimal.
fn is_numeral(text: &[u8]) -> bool
    ensures { result ≡ (well_led text.now && all_digits text.now) }
{
    is_well_led(text) && text.iter().all(|b| b.is_ascii_digit())
}

// The digits of the longest number, 65535.
const DIGITS_MAX: usize = 5;

// A number from `low` to `high`, written in plain decimal. A text that is too long is refused before its digits are looked at.
pub fn read_number(text: &[u8], low: u16, high: u16) -> Option<u16>
    ensures { result ≡ number low high text.now }
{
    if text.len() > DIGITS_MAX {
        return None;
    }
    if !is_numeral(text) {
        return None;
    }
    let number = str::from_utf8(text).ok()?.parse().ok()?;
    (low..=high).contains(&number).then_some(number)
}

// The same of a byte.
pub fn read_byte(text: &[u8], low: u8, high: u8) -> Option<u8>
    ensures { result ≡ number low high text.now }
{
    u8::try_from(read_number(text, low as u16, high as u16)?).ok()
}
