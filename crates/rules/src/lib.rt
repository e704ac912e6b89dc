// The run's flow of control, and its stack code. The rules themselves are definitions in specs/.
#![tactic(auto)]

pub mod error;

use error::ErrorKind;
use tables::refusal::RunRule;

// How a run stands: going on, cut short by an error, or refused (rule, record).
#[derive(Clone, Copy, Debug, PartialEq, Eq)]
pub enum Flow {
    Go,
    Cut {
        kind: ErrorKind,
        start: u32,
        end: u32,
    },
    Refused(RunRule, usize),
}

// Document 02, job 11: "The caller names the code, 1 or 2".
#[derive(Clone, Copy, Debug, PartialEq, Eq)]
pub enum StackCode {
    Code1,
    Code2,
}
