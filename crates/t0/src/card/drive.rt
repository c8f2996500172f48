ghost use Rattle.std.specs.Prelude.{◌≡◌};
ghost use Rattle.t0.specs.Cards.{at_rest, nothing, next_of, spoken, received, card_reset};
ghost use Rattle.t0.specs.CardValues.{meant, Becomes};

use crate::card::{Card, Kept, Out, Receiving};
use crate::settings::Settings;
use apdu::{Application, Header};

impl<A: Application> Card<A> {
    // A card that rests and holds nothing.
    pub fn new(app: A, settings: Settings) -> Card<A>
        ensures card { meant A.Application.means result ≡ at_rest (A.Application.means.state app) nothing }
        ensures settings { result.settings ≡ settings }
    {
        Card {
            app,
            settings,
            receiving: Receiving::Nothing,
            body: [0; 255],
            answer: [0; 256],
            kept: Kept::Nothing,
            out: Out::nothing(),
        }
    }

    // The next character that the card sends, if it has one to send.
    pub fn next(&mut self) -> Option<u8>
        ensures gave { result ≡ next_of (meant A.Application.means self.old).pending }
        ensures card { meant A.Application.means self.new ≡ spoken (meant A.Application.means self.old) }
        ensures settings { self.new.settings ≡ self.old.settings }
    {
        let (byte, out) = self.out.advance(self.settings, &self.answer);
        self.out = out;
        byte
    }

    // Takes a character; one that comes while the card has some to send is ignored.
    pub fn receive(&mut self, byte: u8)
        ensures { Becomes A.Application.means self.old self.new (λ s c. received A.Application.means s c byte) }
    {
        if self.out.has_some() {
            return;
        }
        match self.receiving {
            Receiving::Nothing => self.receiving = Receiving::Cla(byte),
            Receiving::Cla(cla) => self.receiving = Receiving::ClaIns(cla, byte),
            Receiving::ClaIns(cla, ins) => self.receiving = Receiving::ClaInsP1(cla, ins, byte),
            Receiving::ClaInsP1(cla, ins, p1) => {
                self.receiving = Receiving::Header(Header {
                    cla,
                    ins,
                    p1,
                    p2: byte,
                });
            }
            Receiving::Header(header) => self.head(header, byte),
            Receiving::Data(taking) => self.take(taking, byte),
        }
    }

    // A warm reset.
    pub fn reset(&mut self)
        ensures { Becomes A.Application.means self.old self.new (λ _ c. card_reset A.Application.means c) }
    {
        self.app.reset();
        self.receiving = Receiving::Nothing;
        self.kept = Kept::Nothing;
        self.out = Out::nothing();
    }
}
