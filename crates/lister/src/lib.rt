// genlist's work between its input and its output.
#![tactic(auto)]

pub mod fronts;
pub mod list;
