// What the programs that replay cases share: the words of the input, the tables of a case, and printing.
#![tactic(auto)]

pub mod case;
pub mod input;
pub mod print;
pub mod run;
#[cfg(test)]
mod tests;
