// Card scripts and trace lines, in fixed memory. A script is read byte by byte into lines (the link's settings, the positions of damage, the turns), a line can be printed as it was written, and what a run does is written as lines of a trace.

#![tactic(auto)]

pub mod laws;
pub mod line;
pub mod reader;
#[cfg(test)]
mod tests;
mod text;
pub mod trace;
