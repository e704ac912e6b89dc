// get_label, and labels that are taken one behind the other.
ghost use Rattle.std.specs.Prelude.{◌≡◌, ◌+◌};
ghost use Rattle.context.specs.Words.{cap, more};

use crate::Context;
use crate::word::capped;
use opcode::index::LabelId;

impl Context<'_> {
    ghost use Rattle.context.specs.Sinks.{Takes};

    #[tactic(auto, unfolding(crate::specs::Sinks::took))]
    pub fn get_label(&mut self) -> LabelId
        ensures { Takes self.old self.new 1 result.0 }
    {
        let label = self.label_count;
        if self.goes_on() {
            self.label_count = label.saturating_add(1);
        }
        LabelId(label)
    }

    // The label that is taken next.
    pub fn coming_label(&self) -> LabelId
        ensures { result.0 ≡ self.now.label_count }
    {
        LabelId(self.label_count)
    }

    // A label for each of n, one behind the other: the first.
    pub fn get_labels(&mut self, n: usize) -> LabelId
        ensures { Takes self.old self.new n result.0 }
    {
        let label = self.label_count;
        if self.goes_on() {
            self.label_count = label.saturating_add(capped(n));
        }
        LabelId(label)
    }
}

// The label that was taken behind this one.
pub fn next_label(label: LabelId) -> LabelId
    ensures { result.0 ≡ more label.0 }
{
    label_at(label, 1)
}

// The label that was taken n behind this one.
pub fn label_at(label: LabelId, n: u32) -> LabelId
    ensures { result.0 ≡ cap (label.0 + n) }
{
    LabelId(label.0.saturating_add(n))
}
