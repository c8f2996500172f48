ghost use Rattle.std.specs.Prelude.{◌≡◌, ◌≤◌, [], length, if◌then◌else◌};
ghost use Rattle.apdu.specs.Applications.{does, opened};
ghost use Rattle.apdu.specs.Judging.{parts};
ghost use Rattle.link.specs.Direct.{directly, over, nearer};
ghost use Rattle.link.specs.Meant.{meant, meant_order};
ghost use Rattle.link.specs.Turns.{send, restart};
ghost use Rattle.link.specs.Results.{Sends, Resets, Takes};

use crate::answer::run_command;
use crate::turn::Order;
use apdu::{Application, Command, Refusal, Status, judge};

// The direct card: an application with no link between it and the box. It may be told after how many turns a link was lost;
// from that turn on it refuses with 5 what passes 1 to 4, and changes nothing.
#[derive(Drop)]
pub struct DirectCard<A> {
    app: A,
    told: Option<u32>,
}

impl<A: Application> DirectCard<A> {
    pub fn new(app: A, told: Option<u32>) -> DirectCard<A>
        ensures { meant A.Application.means result ≡ record { state = A.Application.means.state app; told = told } }
    {
        DirectCard { app, told }
    }

    // One turn that sends a command: the count of answer bytes, which open the answer buffer, and the status; or a refusal.
    pub fn send(&mut self, command: &[u8], answer: &mut [u8]) -> Result<(usize, Status), Refusal>
        ensures { Sends (directly A.Application.means (meant A.Application.means self.old) (send command.now) answer.old) (meant A.Application.means self.new) answer.new result }
    {
        let carried = self.count_turn();
        let command = judge(command, answer.len())?;
        carried?;
        Ok(run_command(&mut self.app, command, answer))
    }

    // One turn that resets the card.
    pub fn reset(&mut self) -> Result<(), Refusal>
        ensures { Resets (directly A.Application.means (meant A.Application.means self.old) restart []) (meant A.Application.means self.new) result }
    {
        self.count_turn()?;
        self.app.reset();
        Ok(())
    }

    // One turn, a send or a reset: as `send` gives it, and None for a reset that was done.
    pub fn take(
        &mut self,
        order: Order<'_>,
        answer: &mut [u8],
    ) -> Result<Option<(usize, Status)>, Refusal>
        ensures { Takes (directly A.Application.means (meant A.Application.means self.old) (meant_order order.entry) answer.old) (meant A.Application.means self.new) answer.new result }
    {
        match order {
            Order::Send(command) => self.send(command, answer).map(Some),
            Order::Reset => self.reset().map(|_| None),
        }
    }

    // Counts a turn towards the loss that was told; refuses it where that has come.
    fn count_turn(&mut self) -> Result<(), Refusal>
        ensures lost { result ≡ (if over self.old.told then Err Refusal.Lost else Ok tt) }
        ensures told { self.new.told ≡ nearer self.old.told }
        ensures app { self.new.app ≡ self.old.app }
    {
        match self.told {
            None => Ok(()),
            Some(0) => Err(Refusal::Lost),
            Some(turns) => {
                self.told = Some(turns - 1);
                Ok(())
            }
        }
    }
}
