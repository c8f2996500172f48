ghost use Rattle.std.specs.Prelude.{◌≡◌};
ghost use Rattle.link.specs.Meant.{quiet, meant_link};

use crate::answer::run_command;
use crate::link::Link;
use apdu::{Application, Refusal, Status, judge};
use wire::{Record, Traced};

// A link with no line, straight to the application: every turn is carried, and no character crosses.
#[derive(Drop)]
pub struct DirectLink<A> {
    app: A,
}

impl<A: Application> DirectLink<A> {
    pub fn new(app: A) -> DirectLink<A>
        ensures { meant_link A.Application.means result ≡ quiet (A.Application.means.state app) }
    {
        DirectLink { app }
    }
}

impl<A: Application> Link for DirectLink<A> {
    type App = A;

    ghost meaning = { meant_link };

    fn send(
        &mut self,
        command: &[u8],
        answer: &mut [u8],
        _trace: &mut Record<'_, Traced>,
    ) -> Result<(usize, Status), Refusal> {
        let command = judge(command, answer.len())?;
        Ok(run_command(&mut self.app, command, answer))
    }

    fn reset(&mut self, _trace: &mut Record<'_, Traced>) -> Result<(), Refusal> {
        self.app.reset();
        Ok(())
    }
}
