// The stack as a whole: the worked examples of commands and applications, proved from the definitions as one list, and tests
// of applications behind the direct card and over T=0.
#![tactic(auto)]

ghost use Rattle.stack.specs.Examples.{WorkedExamples};

#[cfg(test)]
mod damaged_debits;
#[cfg(test)]
mod tests;

// The worked examples hold.
pub fn worked_examples() -> u8
    ensures { WorkedExamples }
{
    0
}
