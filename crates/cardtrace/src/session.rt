ghost use Rattle.std.specs.Prelude.{◌≡◌, Ok};
ghost use Rattle.cardtrace.specs.Sessions.{begins, takes, ends, plays, TracesScripts};

use crate::player::Player;
use apdu::SettingRefusal;
use arrayvec::ArrayString;
use link::Order;
use script::line::Line;
use script::reader::{Reader, Refusal};
use script::trace::{LINE_ROOM, bad_line};
use std::marker::Model;

// A session of the program: the reader of the script, and the player of its turns.
#[derive(Drop)]
pub struct Session {
    reader: Reader,
    player: Player,
}

impl Model for Session {
    ghost use Rattle.cardtrace.specs.Sessions.{Tracing};

    ghost Value = { Tracing };

    // A session is seen as its reading of the script and its playing.
    ghost view = { λ s. record { reading = s.reader; playing = s.player } };
}

impl Session {
    // A session at the start of a script, with the one card of the program. A session that is fed a script byte by byte and
    // then its end prints the script's trace.
    pub fn new() -> Result<Session, SettingRefusal>
        ensures made { result ≡ Ok begins }
        ensures whole { TracesScripts }
    {
        Ok(Session {
            reader: Reader::new(),
            player: Player::new()?,
        })
    }

    // Takes the next byte of the script. The text becomes what is to be printed.
    pub fn push(&mut self, byte: u8, text: &mut ArrayString<LINE_ROOM>)
        ensures after { self.new ≡ (takes self.old byte).after }
        ensures text { text.new.bytes ≡ (takes self.old byte).text }
    {
        let step = self.reader.push(byte);
        // Most bytes bring nothing yet.
        if matches!(step, Ok(None)) {
            text.clear();
        } else {
            self.play(step, text);
        }
    }

    // Takes the end of the script, likewise.
    pub fn finish(&mut self, text: &mut ArrayString<LINE_ROOM>)
        ensures after { self.new ≡ (ends self.old).after }
        ensures text { text.new.bytes ≡ (ends self.old).text }
    {
        let step = self.reader.finish();
        self.play(step, text);
    }

    // Plays what the reader told.
    fn play(&mut self, step: Result<Option<Line>, Refusal>, text: &mut ArrayString<LINE_ROOM>)
        ensures after { self.new ≡ (plays self.old step).after }
        ensures text { text.new.bytes ≡ (plays self.old step).text }
    {
        match step {
            Ok(None | Some(Line::Link(_) | Line::Damage(_))) => text.clear(),
            Ok(Some(Line::Send { program, .. })) => {
                *text = self
                    .player
                    .play(program, Order::Send(self.reader.command()));
            }
            Ok(Some(Line::Reset { program })) => *text = self.player.play(program, Order::Reset),
            Err(Refusal::BadLine { line }) => *text = bad_line(line),
        }
    }
}
