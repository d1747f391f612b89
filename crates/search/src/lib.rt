// The search by cells (RULES "Live cells", "Rounds").
#![tactic(auto)]

// The parts of a cell that is cut, and their bounds.
mod halves;
/// The search: its start, its rounds and its answer (RULES "Rounds").
pub mod run;
