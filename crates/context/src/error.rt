// errors.push(err)
ghost use Rattle.std.specs.Prelude.{◌≡◌};
ghost use Rattle.rules.specs.Run.{error_number};

use crate::Context;
use pool::entries::put;
use rules::Flow;
use rules::error::ErrorKind;

impl Context<'_> {
    ghost use Rattle.context.specs.Sinks.{kept, noted, with_code};

    // A walk with the functions inside writes an error's words, the other none.
    fn note(&mut self, kind: ErrorKind, start: u32, end: u32)
        ensures { self.new ≡ with_code (noted self.old (error_number kind) start end) self.old }
    {
        if self.nest {
            put(
                self.code,
                self.error_count as usize,
                [kind.into(), start, end],
            );
        }
    }

    // An error is kept, and the run goes on.
    #[tactic(auto, unfolding(crate::specs::Sinks::kept))]
    pub fn keep_error(&mut self)
        ensures { self.new ≡ kept self.old }
    {
        if let Flow::Cut { kind, start, end } = self.flow {
            self.note(kind, start, end);
            self.flow = Flow::Go;
            self.error_count = self.error_count.saturating_add(1);
        }
    }
}
