// How a condition gets its steps.
ghost use Rattle.std.specs.Prelude.{◌≡◌, ◌+◌, ◌<◌, []};
ghost use Rattle.conditions.specs.Postfix.{trees, grow};

use crate::condition::{Condition, MOST_STEPS, Step};

impl Condition {
    // The condition that is always true.
    #[tactic(auto, unfolding(crate::specs::Postfix::trees))]
    pub fn always() -> Condition
        ensures none { trees result ≡ [] }
        ensures unused { result.used ≡ 0 }
    {
        Condition {
            steps: [Step::Not; MOST_STEPS],
            used: 0,
        }
    }

    // One step more.
    #[tactic(auto, using(crate::proofs::Stacks::pushed), unfolding(crate::specs::Postfix::trees))]
    pub(crate) fn push(&mut self, step: Step)
        requires { self.old.used < 159 }
        ensures trees { trees self.new ≡ grow step (trees self.old) }
        ensures used { self.new.used ≡ self.old.used + 1 }
    {
        self.steps[self.used] = step;
        self.used += 1;
    }
}
