// The tables between: constants and names, what the generator looks things up in.
#![tactic(auto)]

pub mod chain;
pub mod consts;
pub mod effect;
pub mod entries;
pub mod lookup;
mod names;
pub mod notes;
pub mod resolve;
pub mod scope;
pub mod spans;
pub mod value;
