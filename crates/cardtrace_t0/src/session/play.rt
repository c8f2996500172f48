ghost use Rattle.std.specs.Prelude.{◌≡◌, ◌++◌, OnOk};
ghost use Rattle.link.specs.Meant.{meant_order};
ghost use Rattle.script.specs.Scripts.{following};
ghost use Rattle.cardtrace_t0.specs.Plays.{opened, turned};
ghost use Rattle.cardtrace_t0.specs.Sessions.{stand_of, on_direct, tracing, begins, takes, ends, plays, TracesScripts};

use crate::session::print::play_turn;
use crate::session::{Session, Stand, Trouble};
use link::Order;
use script::line::Line;
use script::reader::{Reader, Refusal};
use script::trace::{TurnLabel, bad_line};

impl Stand {
    // Plays a turn, the first of which makes the link, and adds what it prints to the text.
    fn play(&mut self, label: TurnLabel, order: Order<'_>, out: &mut Vec<u8>) -> Result<(), Trouble>
        ensures after { stand_of self.new ≡ (turned (opened (stand_of self.old)) label.turn label.program (meant_order order.entry)).after.stand }
        ensures text { OnOk result (out.new.items ≡ out.old.items ++ (turned (opened (stand_of self.old)) label.turn label.program (meant_order order.entry)).text) }
    {
        self.open();
        match self {
            Stand::Unlinked | Stand::Opening { .. } => Ok(()),
            Stand::OverT0(link) => play_turn(link, label, order, out),
            Stand::Direct(link) => play_turn(link, label, order, out),
        }
    }
}

impl Session {
    // A session at the start of a script. A session that is fed a script byte by byte and then its end prints the script's trace.
    pub fn new() -> Session
        ensures made { tracing result ≡ begins }
        ensures whole { TracesScripts }
    {
        Session {
            reader: Reader::new(),
            stand: Stand::Unlinked,
            turn: 1,
        }
    }

    // Takes the next byte of the script, and adds what is to be printed to the text.
    pub fn push(&mut self, byte: u8, out: &mut Vec<u8>) -> Result<(), Trouble>
        ensures after { tracing self.new ≡ (takes (tracing self.old) byte).after }
        ensures text { OnOk result (out.new.items ≡ out.old.items ++ (takes (tracing self.old) byte).text) }
    {
        let step = self.reader.push(byte);
        self.play(step, out)
    }

    // Takes the end of the script, likewise.
    pub fn finish(&mut self, out: &mut Vec<u8>) -> Result<(), Trouble>
        ensures after { tracing self.new ≡ (ends (tracing self.old)).after }
        ensures text { OnOk result (out.new.items ≡ out.old.items ++ (ends (tracing self.old)).text) }
    {
        let step = self.reader.finish();
        self.play(step, out)
    }

    // Whether the turns are played on the direct card.
    pub fn is_direct(&self) -> bool
        ensures { result ≡ on_direct self.now }
    {
        matches!(self.stand, Stand::Direct(_))
    }

    // Plays what the reader told.
    fn play(
        &mut self,
        step: Result<Option<Line>, Refusal>,
        out: &mut Vec<u8>,
    ) -> Result<(), Trouble>
        ensures after { tracing self.new ≡ (plays (tracing self.old) step).after }
        ensures text { OnOk result (out.new.items ≡ out.old.items ++ (plays (tracing self.old) step).text) }
    {
        match step {
            Ok(None) => Ok(()),
            Ok(Some(Line::Link(settings))) => {
                self.stand.link(settings);
                Ok(())
            }
            Ok(Some(Line::Damage(position))) => {
                self.stand.mark(position);
                Ok(())
            }
            Ok(Some(Line::Send { program, .. })) => {
                let label = self.next_label(program);
                self.stand
                    .play(label, Order::Send(self.reader.command()), out)
            }
            Ok(Some(Line::Reset { program })) => {
                let label = self.next_label(program);
                self.stand.play(label, Order::Reset, out)
            }
            Err(Refusal::BadLine { line }) => {
                out.extend_from_slice(bad_line(line).as_bytes())?;
                Ok(())
            }
        }
    }

    // Labels this turn with its number and program; the next has the following number.
    fn next_label(&mut self, program: u8) -> TurnLabel
        ensures label { result ≡ record { turn = self.old.turn; program = program } }
        ensures after { self.new ≡ record { reader = self.old.reader; stand = self.old.stand; turn = following self.old.turn } }
    {
        let turn = self.turn;
        self.turn = turn.saturating_add(1);
        TurnLabel { turn, program }
    }
}
