// clean_stack_label_stack: its labels are taken one behind the other, so it is the first of them and how many.
ghost use Rattle.std.specs.Prelude.{◌≡◌, ◌+◌};
ghost use Rattle.context.specs.Words.{cap};
ghost use Rattle.pattern.specs.Promises.{Begins, Deepens, Cleans};

use context::Context;
use context::label::label_at;
use opcode::index::LabelId;
use opcode::opcode::OpCode;

#[derive(Clone, Copy)]
pub struct CleanStack {
    pub first: LabelId,
    pub taken: u32,
}

impl CleanStack {
    // vec![get_label()]
    pub fn new(cx: &mut Context) -> CleanStack
        ensures { Begins cx.old cx.new result }
    {
        let first = cx.get_label();
        CleanStack { first, taken: 1 }
    }

    // get_or_push_pattern_clean_stack_label: one label more where there is none at this depth.
    pub fn deepened(self, cx: &mut Context, depth: u32) -> CleanStack
        ensures { Deepens cx.old cx.new self result depth }
    {
        if depth < self.taken {
            return self;
        }
        cx.get_label();
        CleanStack {
            first: self.first,
            taken: self.taken.saturating_add(1),
        }
    }

    // The label at a depth.
    pub fn label(self, depth: u32) -> LabelId
        ensures { result.0 ≡ cap (self.first.0 + depth) }
    {
        label_at(self.first, depth)
    }

    // From the last label to the first, with a Pop between two.
    pub fn clean_up(self, cx: &mut Context)
        ensures cleans { Cleans cx.old cx.new self }
        ensures consts { cx.new.consts ≡ cx.old.consts }
    {
        for n in (1..self.taken).rev() {
            cx.push_label(self.label(n));
            cx.push_code(OpCode::Pop);
        }
        cx.push_label(self.label(0))
    }
}
