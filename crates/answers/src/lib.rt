// The lines that answers are printed as, and the output that they are appended to.
#![tactic(auto)]

pub mod buffer;
pub mod output;
pub mod printed;
