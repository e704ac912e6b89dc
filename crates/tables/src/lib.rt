// The tables below: lent words with total accessors, and the rules that they must keep.
#![tactic(auto)]

pub mod ast;
pub mod check;
pub mod children;
pub mod detail;
pub mod details;
pub mod entries;
pub mod kind;
pub mod lent;
pub mod links;
pub mod members;
pub mod naming;
pub mod nesting;
pub mod numbering;
pub mod refusal;
mod scratch;
pub mod semantic;
pub mod slices;
pub mod strings;
