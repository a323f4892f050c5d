// Switches as a plan sets them: which are on, and which wishes they keep.
ghost use Rattle.std.specs.Prelude.{◌≡◌, ◌≤◌, ◌<◌, false, get_or};
ghost use Rattle.scope.specs.Sheet.{most_switches, All, Among, Valid};
ghost use Rattle.scope.specs.Meaning.{bits, nth, keeps};
ghost use Rattle.words.specs.Entries.{literals_there, clause_there};

use crate::planned::Planned;
use crate::point::switch_on;
use words::Plan;
use words::literal::Literal;
use words::wish::Clause;

// How many there are, and the plan.
#[derive(Clone, Copy)]
pub struct Switches {
    pub count: u32,
    pub plan: Plan,
    ghost few: { count ≤ most_switches },
}

impl Switches {
    // Whether switch k is on.
    pub fn is_on(self, k: u32) -> bool
        requires { Among self.count k }
        ensures { result ≡ nth (bits self.count self.plan.0) k }
    {
        switch_on(self.plan, self.count, k)
    }

    // Whether there is a literal, and they make it true.
    fn makes(self, literal: Option<Literal>) -> bool
        requires { All (λ l. Among self.count l.size) (literals_there literal) }
        ensures { result ≡ keeps (nth (bits self.count self.plan.0)) (literals_there literal) }
    {
        literal.is_some_and(|l| self.is_on(l.switch) != l.minus)
    }

    // Whether they keep a wish of these literals.
    pub fn keeps(self, clause: Clause) -> bool
        requires { All (λ l. Among self.count l.size) (clause_there clause) }
        ensures { result ≡ keeps (nth (bits self.count self.plan.0)) (clause_there clause) }
    {
        clause.iter().any(|literal| self.makes(*literal))
    }
}

impl Planned<'_> {
    // How many switches there are, with the plan: read once, for all wishes.
    pub fn switches(self) -> Switches
        ensures valid { Valid self.entry.sheet.now }
        ensures count { result.count ≡ self.entry.sheet.now.switches }
        ensures plan { result.plan ≡ self.entry.plan }
    {
        Switches {
            count: self.sheet.counts().switches,
            plan: self.plan,
        }
    }

    // Whether switch i is on, counted from 0.
    pub fn is_on(self, i: usize) -> bool
        requires { i < self.sheet.now.switches }
        ensures { result ≡ get_or (bits self.entry.sheet.now.switches self.entry.plan.0) i false }
    {
        self.switches().is_on(i as u32 + 1)
    }
}
