ghost use Rattle.script.specs.Laws.{PrintsBack};
ghost use Rattle.script.specs.Steps.{ReadsScripts};

// A line that was read prints as the bytes that it was read from, and lies within its limits; a line within its limits is read back from what it prints as.
pub fn printing_stands() -> u8
    ensures { PrintsBack }
{
    0
}

// A reader fed all of a text, and then its end, tells the lines of the script that the text is, in their order, then the number of its bad line, if it has one, and nothing else.
pub fn reading_stands() -> u8
    ensures { ReadsScripts }
{
    0
}
