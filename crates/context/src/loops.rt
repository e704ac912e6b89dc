// continue_stack and break_stack: the newest open loops by their continue labels; a break label is taken right behind.
ghost use Rattle.std.specs.Prelude.{◌≡◌};

use crate::label::next_label;
use crate::{Context, KEPT};
use opcode::index::LabelId;

impl Context<'_> {
    ghost use Rattle.context.specs.Sinks.{stacked, opened, closed, continue_of, behind};

    // Where all places are taken the oldest label is dropped.
    fn push_loop(&mut self, continue_label: LabelId)
        ensures { self.new ≡ stacked continue_label self.old }
    {
        if self.depth < KEPT {
            self.continue_stack[self.depth] = continue_label;
            self.depth += 1;
            return;
        }
        self.continue_stack.rotate_left(1);
        self.continue_stack[KEPT - 1] = continue_label;
    }

    #[tactic(auto, unfolding(crate::specs::Sinks::opened))]
    pub fn begin_loop(&mut self, continue_label: LabelId)
        ensures { self.new ≡ opened continue_label self.old }
    {
        if self.goes_on() {
            self.push_loop(continue_label)
        }
    }

    #[tactic(auto, unfolding(crate::specs::Sinks::closed))]
    pub fn end_loop(&mut self)
        ensures { self.new ≡ closed self.old }
    {
        if self.goes_on() {
            self.depth = self.depth.saturating_sub(1);
        }
    }

    // continue_stack().last(), and label 0 at a depth that has no place.
    pub fn continue_label(&self) -> Option<LabelId>
        ensures { result ≡ continue_of self.now }
    {
        let place = self.depth.checked_sub(1)?;
        let label = self.continue_stack.get(place).copied();
        Some(label.unwrap_or(LabelId(0)))
    }

    // break_stack().last()
    pub fn break_label(&self) -> Option<LabelId>
        ensures { result ≡ behind (continue_of self.now) }
    {
        self.continue_label().map(next_label)
    }
}
