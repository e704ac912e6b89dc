// genlist's work on slices: its text read into tables, and what it prints, as bytes in a lent buffer.
#![tactic(auto)]

mod kinds;
mod lines;
pub mod print;
pub mod read;
pub mod text;
