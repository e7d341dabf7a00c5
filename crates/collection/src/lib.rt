// A collection file from its first line to its last: the graph that it names is made, its questions are answered.
#![tactic(auto)]

mod faults;
mod machine;
mod reading;

pub use faults::{Fault, FileFault};
pub use reading::{Finished, OUTPUT, run};
