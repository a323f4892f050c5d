// Rules: whether a plan passes a pattern, and the first pattern that it does not pass.
ghost use Rattle.std.specs.Prelude.{◌≡◌, ◌^◌, ◌<◌};
ghost use Rattle.scope.specs.Meaning as meaning;
ghost use Rattle.scope.specs.Rule.{missed};
ghost use Rattle.scope.specs.Jobs.{task};
ghost use Rattle.circuit.specs.Answers.{missed_of};

use crate::planned::Planned;
use words::Pattern;

// 2 to the k.
pub fn power(k: u32) -> u32
    requires { k < 32 }
    ensures { result ≡ 2 ^ k }
{
    1 << k
}

impl Planned<'_> {
    // Whether all rules are true.
    #[tactic(auto, using(crate::specs::Laws::Patterns::passes_rules, crate::specs::Laws::Patterns::passes_but))]
    pub fn passes(self, pattern: Pattern) -> bool
        ensures { result ≡ meaning.passes self.entry.sheet.now self.entry.plan.0 pattern.0 }
    {
        for i in 0..self.sheet.counts().rules as usize {
            if !self.truth(pattern, self.sheet.rule(i)) {
                return false;
            }
        }
        true
    }

    // The smallest pattern that the plan does not pass, if there is one.
    pub fn first_missed(self) -> Option<Pattern>
        ensures { missed_of result ≡ missed (task self.entry.sheet.now) self.entry.plan.0 }
    {
        (0..power(self.sheet.counts().faults))
            .find(|q| !self.passes(Pattern(*q)))
            .map(Pattern)
    }
}
