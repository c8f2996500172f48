ghost use Rattle.std.specs.Prelude.{◌≡◌, ◌≤◌, [], pos, ◌+ℤ◌};
ghost use Rattle.apps.specs.Purse.{four_bytes, balance, limit, within, move_by, Kept, JoiningKeeps, CreditAdds, DebitTakes, RefusalKeeps, RunsKeepKept, ResetsKeepKept};
ghost use Rattle.apps.specs.Replies.{gives};

use crate::purse::{LIMIT, Purse};
use apdu::Status;
use arrayvec::ArrayVec;

impl Purse {
    // A purse with no movements.
    pub fn new() -> Purse
        ensures { result ≡ [] }
    {
        Purse {
            movements: ArrayVec::new(),
        }
    }

    // The balance: the sum of the movements, which never leaves its limits; they are at most 32, and it lay in its limits after
    // each of them. The other clauses are the laws of the purse:
    // joining movements keeps the balance, an accepted credit adds its amount to it, an accepted debit takes its amount off,
    // and a refused command changes nothing; a purse with no movements is within these limits, and no command and no reset
    // leads out of them.
    pub fn balance(&self) -> u32
        ensures value { pos result ≡ balance self.now }
        ensures limits { result ≤ limit }
        ensures kept { Kept self.now }
        ensures joining { JoiningKeeps }
        ensures credit { CreditAdds }
        ensures debit { DebitTakes }
        ensures refusal { RefusalKeeps }
        ensures empty { Kept [] }
        ensures runs { RunsKeepKept }
        ensures resets { ResetsKeepKept }
    {
        let sum: i32 = self.movements.iter().sum();
        sum as u32
    }

    // Whether the balance stays in its limits under a movement.
    fn allows(&self, movement: i32) -> bool
        ensures { result ≡ within (balance self.now +ℤ movement) }
    {
        let balance = i64::from(self.balance()) + i64::from(movement);
        (0..=i64::from(LIMIT)).contains(&balance)
    }

    // Records a movement and answers the new balance, if that lies in its limits.
    pub(super) fn record(&mut self, movement: i32) -> Result<u32, Status>
        ensures { gives self.new four_bytes result ≡ move_by self.old movement }
    {
        if !self.allows(movement) {
            return Err(Status::conditions_not_met());
        }
        if self.movements.is_full() {
            let oldest = self.movements.remove(0);
            self.movements[0] += oldest;
        }
        self.movements.push(movement);
        Ok(self.balance())
    }
}
