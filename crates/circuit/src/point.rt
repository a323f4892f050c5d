// Points: the truth of switches, faults and gates.
ghost use Rattle.std.specs.Prelude.{◌≡◌, ◌≤◌};
ghost use Rattle.scope.specs.Sheet.{most_switches, most_faults, points, Among};
ghost use Rattle.scope.specs.Meaning.{bits, nth};
ghost use Rattle.scope.specs.Meaning as meaning;

use crate::planned::Planned;
use words::gate::Gate;
use words::{Pattern, Plan};

// Digit p of n binary digits of a number, the first highest. Only the two functions after it call it, so that a plan's number is never
// taken for a pattern's. That p is among n is asked here, and where a switch or a point is named, each of its own n: a type for it would
// be made of both, by the same test, in every call.
#[tactic(auto, using(scope::proofs::Laws::Points::bits_at))]
fn digit(number: u32, n: u32, p: u32) -> bool
    requires { (n ≤ 32) × Among n p }
    ensures { result ≡ nth (bits n number) p }
{
    (number >> (n - p)) % 2 == 1
}

// Whether switch k of a is on in a plan.
pub fn switch_on(plan: Plan, a: u32, k: u32) -> bool
    requires { (a ≤ most_switches) × Among a k }
    ensures { result ≡ nth (bits a plan.0) k }
{
    digit(plan.0, a, k)
}

// Whether fault k of f is in a pattern.
fn fault_on(pattern: Pattern, f: u32, k: u32) -> bool
    requires { (f ≤ most_faults) × Among f k }
    ensures { result ≡ nth (bits f pattern.0) k }
{
    digit(pattern.0, f, k)
}

impl Planned<'_> {
    // The truth of a point by recursion over the gates; the second point of a gate is looked at only if
    // the first does not decide.
    #[tactic(auto, using(crate::specs::Laws::Points::at_switch, crate::specs::Laws::Points::at_fault_lem))]
    pub fn truth(self, pattern: Pattern, point: u32) -> bool
        requires { Among (points self.sheet.now) point }
        ensures { result ≡ meaning.truth self.entry.sheet.now self.entry.plan.0 pattern.0 point }
    {
        let counts = self.sheet.counts();
        let a = counts.switches;
        if point <= a {
            return switch_on(self.plan, a, point);
        }
        let inputs = a + counts.faults;
        if point <= inputs {
            return fault_on(pattern, counts.faults, point - a);
        }
        match self.sheet.gate((point - inputs - 1) as usize) {
            Gate::Not(p) => !self.truth(pattern, p),
            Gate::And(p, q) => self.truth(pattern, p) && self.truth(pattern, q),
            Gate::Or(p, q) => self.truth(pattern, p) || self.truth(pattern, q),
        }
    }
}
