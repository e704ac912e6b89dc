// push_code, the one sink for markers.
ghost use Rattle.std.specs.Prelude.{◌≡◌, ◌<◌};
ghost use Rattle.opcode.specs.Words.{pair_of};
ghost use Rattle.context.specs.Words.{limit};

use crate::Context;
use opcode::index::LabelId;
use opcode::opcode::{CodeMarker, Words};
use pool::entries::put;

impl Context<'_> {
    ghost use Rattle.context.specs.Sinks.{writes as writes_of, marked, pushed};

    // Whether a marker is written: in a walk with the functions inside none is.
    pub fn writes(&self) -> bool
        ensures { result ≡ writes_of self.now }
    {
        !self.nest && self.goes_on() && self.marker_count < u32::MAX
    }

    // The two words of a marker at its place, where there is room.
    fn mark(&mut self, w: Words)
        requires { self.old.marker_count < limit }
        ensures { self.new ≡ marked w self.old }
    {
        put(self.code, self.marker_count as usize, [w.code, w.operand]);
        self.marker_count += 1;
    }

    #[tactic(auto, unfolding(crate::specs::Sinks::pushed))]
    pub fn push_code<T: Into<Words>>(&mut self, code: T)
        ensures { (w : _) × T.converts code w × (self.new ≡ pushed w self.old) }
    {
        let words = code.into();
        if self.writes() {
            self.mark(words)
        }
    }

    pub fn push_label(&mut self, label: LabelId)
        ensures { self.new ≡ pushed (pair_of 52 label.0) self.old }
    {
        self.push_code(CodeMarker::Label(label))
    }
}
