// The link over T=0: the two ends joined by a line, behind the interface of links; and the laws of what crosses.
#![tactic(auto)]

mod laws;
mod t0_link;

pub use laws::{conversation_law, lost_exactly, t0_law};
pub use t0_link::T0Link;
