// The run's end: an error or a refusal ends what goes on.
ghost use Rattle.std.specs.Prelude.{◌≡◌};
ghost use Rattle.tables.specs.Record.{word};

use crate::Context;
use rules::Flow;
use rules::error::ErrorKind;
use tables::ast::{end, start};
use tables::refusal::RunRule;

impl Context<'_> {
    ghost use Rattle.context.specs.Sinks.{stopped};

    #[tactic(auto, unfolding(crate::specs::Sinks::stopped))]
    pub fn stop(&mut self, flow: Flow)
        ensures { self.new ≡ stopped flow self.old }
    {
        if self.goes_on() {
            self.flow = flow;
        }
    }

    // return Err(..), an error of this kind at record r
    pub fn cut(&mut self, recs: &[u32], kind: ErrorKind, r: usize)
        ensures { self.new ≡ stopped (Flow.Cut kind (word recs.now r 4) (word recs.now r 5)) self.old }
    {
        self.stop(Flow::Cut {
            kind,
            start: start(recs, r),
            end: end(recs, r),
        });
    }

    pub fn refuse(&mut self, rule: RunRule, r: usize)
        ensures { self.new ≡ stopped (Flow.Refused rule r) self.old }
    {
        self.stop(Flow::Refused(rule, r));
    }
}
