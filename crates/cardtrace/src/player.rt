ghost use Rattle.std.specs.Prelude.{◌≡◌, Ok};
ghost use Rattle.link.specs.Meant.{meant_order};
ghost use Rattle.cardtrace.specs.Traces.{start, turn_played};

use apdu::SettingRefusal;
use apps::{Entry, Files};
use arrayvec::ArrayString;
use link::{DirectCard, Order};
use script::trace::{LINE_ROOM, TurnLabel, result_line};
use std::marker::Model;

// Where the playing of a script stands: the card, and the number of the coming turn.
#[derive(Drop)]
pub struct Player {
    card: DirectCard<Files>,
    turn: u64,
}

impl Model for Player {
    ghost use Rattle.apps.specs.FileValues.{files_app};
    ghost use Rattle.link.specs.Meant.{meant};
    ghost use Rattle.cardtrace.specs.Traces.{Playing};

    ghost Value = { Playing };

    // A player is seen as the card, by what it means, and the number of the coming turn.
    ghost view = { λ p. record { card = meant files_app p.card; turn = p.turn } };
}

impl Player {
    // At the start of a script, with the one card of the program.
    pub fn new() -> Result<Player, SettingRefusal>
        ensures { result ≡ Ok start }
    {
        let table = [Entry {
            id: 0x2f01,
            start: 0,
            length: 2,
        }];
        let files = Files::new(&table, b"AB")?;
        Ok(Player {
            card: DirectCard::new(files, None),
            turn: 1,
        })
    }

    // Plays a turn of this program, and gives its line.
    pub fn play(&mut self, program: u8, order: Order<'_>) -> ArrayString<LINE_ROOM>
        ensures after { self.new ≡ (turn_played self.old program (meant_order order.entry)).after }
        ensures text { result.bytes ≡ (turn_played self.old program (meant_order order.entry)).text }
    {
        let label = TurnLabel {
            turn: self.turn,
            program,
        };
        self.turn = self.turn.saturating_add(1);
        let mut answer = [0u8; 256];
        let result = self.card.take(order, &mut answer);
        result_line(label, result, &answer)
    }
}
