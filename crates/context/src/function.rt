// A function inside another.
ghost use Rattle.std.specs.Prelude.{◌≡◌, ℕ, min, eqb};
ghost use Rattle.pool.specs.Consts.{most};
ghost use Rattle.tables.specs.Record.{word};

use crate::Context;
use opcode::index::FunctionId;
use tables::ast::{function_kind, p};
use tables::kind::FunctionKind;

// function.function_id
pub fn function_id(recs: &[u32], r: usize) -> FunctionId
    ensures { result.0 ≡ word recs.now r 2 }
{
    FunctionId(p(recs, r))
}

// What the function around another goes on with.
#[derive(Clone, Copy)]
pub struct Outer {
    pub labels: u32,
    pub depth: usize,
    pub function: usize,
}

impl Context<'_> {
    ghost use Rattle.context.specs.Sinks.{outer_of, inside, back_to};

    // The stream of the function at record r begins: answers the one around it. Its loops take the places of the outer ones, whose labels only a walk
    // that writes would need, and none writes with the functions inside.
    pub fn begin_function(&mut self, r: usize) -> Outer
        ensures outer { result ≡ outer_of self.old }
        ensures context { self.new ≡ inside r self.old }
    {
        let outer = Outer {
            labels: self.label_count,
            depth: self.depth,
            function: self.function,
        };
        self.label_count = 0;
        self.depth = 0;
        self.function = r;
        self.functions = self.functions.saturating_add(1);
        outer
    }

    pub fn end_function(&mut self, outer: Outer)
        ensures { self.new ≡ back_to outer self.old }
    {
        self.label_count = outer.labels;
        self.depth = outer.depth;
        self.function = outer.function;
    }

    // Whether the function at record r has the number of functions met before it.
    pub fn is_numbered(&self, recs: &[u32], r: usize) -> bool
        ensures { (n : ℕ) → self.now.functions ≡ min n most → result ≡ eqb (word recs.now r 2) n }
    {
        p(recs, r) as usize == self.functions
    }

    // function_semantic().kind == FunctionKind::Do
    pub fn is_in_do(&self, recs: &[u32]) -> bool
        ensures { result ≡ eqb (word recs.now self.now.function 1) 2 }
    {
        function_kind(recs, self.function) == FunctionKind::Do
    }
}
