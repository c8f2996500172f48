ghost use Rattle.std.specs.Prelude.{◌≡◌, true};
ghost use Rattle.t0.specs.Procedures.{as_p3, is_sw1, get_response};
ghost use Rattle.t0.specs.Terminals.{heading_for, header_byte, place, wants, has_sent, hears, procedure_byte, move, closed, holds, repeats, is_part, count_moved, done_with, fetches, moving, at_phase, one_fewer};
ghost use Rattle.apdu.specs.Commands.{wanted};

use crate::terminal::{Holding, Kind, Phase, Ready, Step, Token, Waiting, Want};
use apdu::{Status, wanted};

// Whether a procedure byte is SW1.
fn is_first_status_byte(byte: u8) -> bool
    ensures { result ≡ is_sw1 byte }
{
    matches!(byte, 0x61..=0x6f | 0x90..=0x9f)
}

impl Waiting {
    // What the terminal wants: to send, or to receive.
    pub fn want(&self) -> Want
        ensures { result ≡ wants self.now self.now.phase }
    {
        match self.phase {
            Phase::Heading(n) => Want::Send(self.header_byte(n)),
            Phase::Sending(_) => Want::SendData(self.place()),
            Phase::Procedure | Phase::Receiving(_) | Phase::Closing(_) => Want::Receive,
        }
    }

    // A character of the header by its number.
    fn header_byte(&self, n: u8) -> u8
        ensures { result ≡ header_byte self.now n }
    {
        match n {
            0 => self.header.cla,
            1 => self.header.ins,
            2 => self.header.p1,
            3 => self.header.p2,
            _ => self.p3,
        }
    }

    // The place of the next byte that moves.
    fn place(&self) -> usize
        ensures { result ≡ place self.now }
    {
        self.total.saturating_sub(self.due)
    }

    // The terminal once it has sent what it wanted to send.
    pub fn sent(self) -> Waiting
        ensures { result ≡ has_sent self self.phase }
    {
        match self.phase {
            Phase::Heading(n) if n < 4 => self.at(Phase::Heading(n + 1)),
            Phase::Heading(_) => self.at(Phase::Procedure),
            Phase::Sending(n) if n > 1 => self.one_fewer(Phase::Sending(n - 1)),
            Phase::Sending(_) => self.one_fewer(Phase::Procedure),
            Phase::Procedure | Phase::Receiving(_) | Phase::Closing(_) => self,
        }
    }

    // Takes a character that arrived.
    pub fn receive(self, byte: u8) -> Step
        ensures { result ≡ hears self self.phase byte }
    {
        match self.phase {
            Phase::Heading(_) | Phase::Sending(_) => Step::Next(self),
            Phase::Procedure => self.procedure(byte),
            Phase::Receiving(n) => self.keep(n),
            Phase::Closing(sw1) => self.close(sw1, byte),
        }
    }

    // The character is the next byte of the answer, of which n are awaited.
    fn keep(self, n: usize) -> Step
        ensures { result ≡ hears self (Phase.Receiving n) 0 }
    {
        let place = self.place();
        let phase = if n <= 1 {
            Phase::Procedure
        } else {
            Phase::Receiving(n - 1)
        };
        Step::Keep(self.one_fewer(phase), place)
    }

    // A procedure byte.
    fn procedure(self, byte: u8) -> Step
        ensures { result ≡ procedure_byte self byte }
    {
        if byte == 0x60 {
            return Step::Next(self);
        }
        if byte == self.header.ins {
            let all = self.due;
            return self.moves(all);
        }
        if byte == !self.header.ins {
            return self.moves(1);
        }
        if is_first_status_byte(byte) {
            return Step::Next(self.at(Phase::Closing(byte)));
        }
        Step::Broken
    }

    // So many bytes move now.
    fn moves(self, n: usize) -> Step
        ensures { result ≡ move self n }
    {
        if self.due == 0 {
            return Step::Broken;
        }
        let phase = match self.kind {
            Kind::Inward => Phase::Sending(n),
            Kind::Outward | Kind::Repeated | Kind::Response => Phase::Receiving(n),
        };
        Step::Next(self.at(phase))
    }

    // The terminal in this phase.
    fn at(self, phase: Phase) -> Waiting
        ensures { result ≡ at_phase self phase }
    {
        Waiting { phase, ..self }
    }

    // The terminal in this phase, with one byte fewer due.
    fn one_fewer(self, phase: Phase) -> Waiting
        ensures { result ≡ one_fewer self phase }
    {
        Waiting {
            due: self.due.saturating_sub(1),
            phase,
            ..self
        }
    }

    // SW2 after SW1.
    fn close(self, sw1: u8, sw2: u8) -> Step
        ensures { result ≡ closed self sw1 sw2 }
    {
        match sw1 {
            0x61 => self.hold(sw2),
            0x6c => self.repeat(sw2),
            _ => self.end(sw1, sw2),
        }
    }

    // 61 and the count of a held answer.
    fn hold(self, count: u8) -> Step
        ensures { result ≡ holds self self.kind count }
    {
        match self.kind {
            Kind::Inward => Step::Held(
                Holding {},
                Token {
                    cla: self.header.cla,
                    ne: self.ne,
                    held: wanted(count),
                },
            ),
            Kind::Outward | Kind::Repeated | Kind::Response => Step::Broken,
        }
    }

    // 6C and a count.
    fn repeat(self, count: u8) -> Step
        ensures { result ≡ repeats self self.kind count }
    {
        let n = usize::from(count);
        match self.kind {
            Kind::Outward if self.due == self.total && n > 0 && n < self.total => Step::Next(
                Waiting::heading(self.header, count, Kind::Repeated, self.ne, n),
            ),
            Kind::Inward | Kind::Outward | Kind::Repeated | Kind::Response => Step::Broken,
        }
    }

    // Any other status.
    fn end(self, sw1: u8, sw2: u8) -> Step
        ensures { result ≡ Rattle.t0.specs.Terminals.ends self sw1 sw2 }
    {
        let Some(status) = Status::new(sw1, sw2) else {
            return Step::Broken;
        };
        match self.kind {
            Kind::Inward => Step::Done(Ready {}, 0, status),
            Kind::Outward | Kind::Repeated | Kind::Response => {
                if self.due > 0 && self.due < self.total {
                    Step::Broken
                } else {
                    Step::Done(Ready {}, self.place(), status)
                }
            }
        }
    }
}
