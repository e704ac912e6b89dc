// The run's context and its sinks: the Rust's Context and what its `self` does. Each does nothing unless the run goes on.
#![tactic(auto)]

ghost use Rattle.std.specs.Prelude.{◌≡◌};

pub mod code;
pub mod constant;
pub mod error;
pub mod flow;
pub mod function;
pub mod label;
pub mod loops;
pub mod name;
pub mod tree;
pub mod word;

use opcode::index::LabelId;
use rules::{Flow, StackCode};

// How many open loops have a place.
pub const KEPT: usize = 128;

// Of a walk without the functions inside, markers and constants are written; of one with them, errors alone, into `code`.
#[derive(Drop)]
pub struct Context<'a> {
    pub code: &'a mut [u32],
    pub consts: &'a mut [u32],
    // How many markers are written, labels taken, constants held and errors kept.
    pub marker_count: u32,
    pub label_count: u32,
    pub const_count: u32,
    pub error_count: u32,
    // The continue labels of the open loops, the innermost last.
    pub continue_stack: [LabelId; KEPT],
    pub depth: usize,
    pub flow: Flow,
    // How many functions are met.
    pub functions: usize,
    // Whether the functions inside are walked too.
    pub nest: bool,
    // The current function's record.
    pub function: usize,
    pub stack: StackCode,
}

impl Context<'_> {
    ghost use Rattle.context.specs.Sinks.{goes};

    pub fn goes_on(&self) -> bool
        ensures { result ≡ goes self.now }
    {
        self.flow == Flow::Go
    }
}
