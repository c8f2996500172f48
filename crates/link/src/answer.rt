ghost use Rattle.apdu.specs.Judging.{parts};
ghost use Rattle.link.specs.Results.{Answers};

use apdu::{Application, Command, Status};

// Runs the application once on a command. The first Ne answer bytes, as far as the answer buffer has room, open it: their
// count, and the status.
pub fn run_command<A: Application>(
    app: &mut A,
    command: Command<'_>,
    answer: &mut [u8],
) -> (usize, Status)
    ensures { Answers A.Application.means (A.Application.means.state app.old) (parts command.entry) answer.old (A.Application.means.state app.new) answer.new result }
{
    let mut buffer = [0u8; 256];
    let (count, status) = app.run(command.header, command.body, &mut buffer);
    let n = count.min(command.ne).min(answer.len());
    answer[..n].copy_from_slice(&buffer[..n]);
    (n, status)
}
