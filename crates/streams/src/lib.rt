// What the programs ask of the system, over std: a read whose failure is told, a buffer read full, an argument as a path,
// and a failure told in a line.
#![tactic(auto)]

pub mod arguments;
pub mod reading;
pub mod telling;
