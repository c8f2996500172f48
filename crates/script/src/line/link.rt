ghost use Rattle.std.specs.Prelude.{◌≡◌};
ghost use Rattle.script.specs.Links.{protocol_of, style_of, settings_of};

use crate::line::field::{cut, read_byte};
use crate::line::{Protocol, Settings};
use t0::Style;

// T.
fn read_protocol(text: &[u8]) -> Option<Protocol>
    ensures { result ≡ protocol_of text.now }
{
    match text {
        b"0" => Some(Protocol::T0),
        b"1" => Some(Protocol::T1),
        _ => None,
    }
}

// S.
fn read_style(text: &[u8]) -> Option<Style>
    ensures { result ≡ style_of text.now }
{
    match text {
        b"w" => Some(Style::Whole),
        b"b" => Some(Style::Bytewise),
        _ => None,
    }
}

// What follows `link,`: the five fields of the link's settings.
pub fn read_settings(text: &[u8]) -> Option<Settings>
    ensures { result ≡ settings_of text.now }
{
    let (protocol, text) = cut(text)?;
    let protocol = read_protocol(protocol)?;
    let (ifsc, text) = cut(text)?;
    let ifsc = read_byte(ifsc, 1, 254)?;
    let (ifsd, text) = cut(text)?;
    let ifsd = read_byte(ifsd, 1, 254)?;
    let (waits, style) = cut(text)?;
    let waits = read_byte(waits, 0, 15)?;
    let style = read_style(style)?;
    Some(Settings {
        protocol,
        ifsc,
        ifsd,
        waits,
        style,
    })
}
