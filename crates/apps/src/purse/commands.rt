ghost use Rattle.std.specs.Prelude.{◌≡◌};
ghost use Rattle.apps.specs.Purse.{four_bytes, amount_in, show_balance, purse_run};
ghost use Rattle.apps.specs.PurseState.{purse_means};
ghost use Rattle.apps.specs.PurseReplies;
ghost use Rattle.apps.specs.Replies.{gives};

use crate::answer::write;
use crate::purse::{LIMIT, Purse};
use apdu::{Application, Header, Status};

// The class of the purse's commands, and their instructions.
const CLASS: u8 = 0x80;

const BALANCE: u8 = 0x50;

const CREDIT: u8 = 0x52;

const DEBIT: u8 = 0x54;

// Reads an amount off the data of a command, or says why it is refused.
fn read_amount(body: &[u8]) -> Result<i32, Status>
    ensures { result ≡ amount_in body.now }
{
    let [a, b, c, d] = body else {
        return Err(Status::wrong_length());
    };
    let amount = u32::from_be_bytes([*a, *b, *c, *d]);
    if !(1..=LIMIT).contains(&amount) {
        return Err(Status::wrong_data());
    }
    Ok(amount as i32)
}

impl Purse {
    // The balance, which is asked with no data.
    fn shown(&self, body: &[u8]) -> Result<u32, Status>
        ensures { gives self.now four_bytes result ≡ show_balance self.now body.now }
    {
        if !body.is_empty() {
            return Err(Status::wrong_length());
        }
        Ok(self.balance())
    }

    // Runs a command: the balance that it answers, or the status that refuses it.
    fn obey(&mut self, header: Header, body: &[u8]) -> Result<u32, Status>
        ensures { gives self.new four_bytes result ≡ purse_run self.old header.cla header.ins header.p1 header.p2 body.now }
    {
        if header.cla != CLASS {
            return Err(Status::unknown_class());
        }
        match header.ins {
            BALANCE | CREDIT | DEBIT if header.p1 != 0 || header.p2 != 0 => Err(
                Status::wrong_parameters(),
            ),
            BALANCE => self.shown(body),
            CREDIT => self.record(read_amount(body)?),
            DEBIT => self.record(-read_amount(body)?),
            _ => Err(Status::unknown_instruction()),
        }
    }
}

// CLA 80: INS 50 asks for the balance, 52 credits and 54 debits. An accepted command answers four bytes, high first.
impl Application for Purse {
    ghost means = { purse_means };

    ghost short = { λ ms cla ins p1 p2 body l. PurseReplies.short ms cla ins p1 p2 body };

    ghost lawful = { λ ms cla ins p1 p2 body l. PurseReplies.lawful ms cla ins p1 p2 body };

    fn run(&mut self, header: Header, body: &[u8], buffer: &mut [u8; 256]) -> (usize, Status) {
        match self.obey(header, body) {
            Ok(cents) => (write(&cents.to_be_bytes(), buffer), Status::done()),
            Err(status) => (0, status),
        }
    }

    fn reset(&mut self) {}
}
