ghost use Rattle.std.specs.Prelude.{◌≡◌, ◌+◌, ◌*◌, ◌<◌, ◌≤◌, ◌++◌, length};
ghost use Rattle.arrayvec.specs.ArrayString.{array_string_len};
ghost use Rattle.script.specs.Hex.{hex, hex_digit};

use arrayvec::ArrayString;
use itoa::{Buffer, Integer};

// Adds a number in decimal.
pub(crate) fn push_number<N: Integer, const ROOM: usize>(text: &mut ArrayString<ROOM>, number: N)
    requires { array_string_len text.old + N.MAX_STR_LEN ≤ ROOM }
    ensures bytes { text.new.bytes ≡ text.old.bytes ++ N.text number }
    ensures len { array_string_len text.new ≤ array_string_len text.old + N.MAX_STR_LEN }
{
    text.push_str(Buffer::new().format(number));
}

// The hex digit of a number below 16.
fn hex_digit(number: u8) -> char
    requires { number < 16 }
    ensures digit { result ≡ hex_digit number }
    ensures ascii { result < 128 }
{
    char::from(if number < 10 {
        b'0' + number
    } else {
        b'A' + (number - 10)
    })
}

// Adds each byte as two hex digits.
pub(crate) fn push_hex<const ROOM: usize>(text: &mut ArrayString<ROOM>, bytes: &[u8])
    requires { array_string_len text.old + 2 * length bytes.now ≤ ROOM }
    ensures bytes { text.new.bytes ≡ text.old.bytes ++ hex bytes.now }
    ensures len { array_string_len text.new ≡ array_string_len text.old + 2 * length bytes.now }
{
    for byte in bytes {
        text.push(hex_digit(*byte / 16));
        text.push(hex_digit(*byte % 16));
    }
}
