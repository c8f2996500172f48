ghost use Rattle.std.specs.Prelude.{◌≡◌, Err};
ghost use Rattle.script.specs.Readings.{FitsRoom, fresh, fed, finished, grown, line_ended, refused, shown};

use crate::line::{LINE_MAX, Line, parse};
use crate::reader::{Reader, Refusal, Stage};
use arrayvec::ArrayVec;

impl Reader {
    pub fn new() -> Reader
        ensures { result ≡ fresh }
    {
        Reader {
            number: 1,
            stage: Stage::Start,
            part: ArrayVec::new(),
            command: ArrayVec::new(),
            over: false,
        }
    }

    // Takes the next byte of the script.
    pub fn push(&mut self, byte: u8) -> Result<Option<Line>, Refusal>
        ensures state { self.new ≡ (fed self.old byte).after }
        ensures value { result ≡ shown (fed self.old byte).out }
    {
        if self.over {
            return Ok(None);
        }
        if byte == b'\n' {
            return self.end_line();
        }
        self.grow(byte)
    }

    // Takes the end of the script.
    pub fn finish(&mut self) -> Result<Option<Line>, Refusal>
        ensures state { self.new ≡ (finished self.old).after }
        ensures value { result ≡ shown (finished self.old).out }
    {
        if self.over {
            return Ok(None);
        }
        if self.part.is_empty() {
            self.over = true;
            return Ok(None);
        }
        let ended = self.end_line();
        self.over = true;
        ended
    }

    // The command of the last send line.
    pub fn command(&self) -> &[u8]
        ensures command { result.now ≡ self.now.command }
        ensures fits { FitsRoom self.now }
    {
        prove!(self.part.len() <= LINE_MAX);
        self.command.as_slice()
    }

    // Puts a byte into the current line, which is refused where it is full.
    fn grow(&mut self, byte: u8) -> Result<Option<Line>, Refusal>
        ensures state { self.new ≡ (grown self.old byte).after }
        ensures value { result ≡ shown (grown self.old byte).out }
    {
        match self.part.try_push(byte) {
            Ok(()) => Ok(None),
            Err(_) => Err(self.refuse()),
        }
    }

    // Ends the reading at the current line, which is bad.
    fn refuse(&mut self) -> Refusal
        ensures state { self.new ≡ (refused self.old).after }
        ensures value { Err result ≡ shown (refused self.old).out }
    {
        self.command.clear();
        self.over = true;
        Refusal::BadLine { line: self.number }
    }

    // Reads the current line, which has ended.
    fn end_line(&mut self) -> Result<Option<Line>, Refusal>
        ensures state { self.new ≡ (line_ended self.old).after }
        ensures value { result ≡ shown (line_ended self.old).out }
    {
        let Some((line, command)) = parse(&self.part) else {
            return Err(self.refuse());
        };
        let Some(stage) = self.stage.after(line) else {
            return Err(self.refuse());
        };
        self.number = self.number.saturating_add(1);
        self.stage = stage;
        self.part.clear();
        if let Line::Send { .. } = line {
            self.command = command;
        }
        Ok(Some(line))
    }
}
