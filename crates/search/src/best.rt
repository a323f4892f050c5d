// The best plan over a list of patterns.
ghost use Rattle.std.specs.Prelude.{◌≡◌, ◌<◌};
ghost use Rattle.scope.specs.Meaning.{plans};
ghost use Rattle.scope.specs.Meaning as meaning;
ghost use Rattle.scope.specs.Pick.{keep};
ghost use Rattle.scope.specs.Rule.{passes_all};
ghost use Rattle.scope.specs.Rule as rule;
ghost use Rattle.scope.specs.Jobs.{task};
ghost use Rattle.search.specs.Answers.{best_of, Priced};
ghost use Rattle.search.specs.Steps.{fails_of, Fails, improves_of};

use circuit::planned::Planned;
use circuit::rule::power;
use words::sheet::Sheet;
use words::{Pattern, Plan};

// A plan, with its cost, by which they are ordered first.
#[derive(Clone, Copy, PartialEq, Eq, PartialOrd, Ord)]
pub struct Candidate {
    pub cost: u32,
    pub plan: Plan,
}

// Whether the plan passes each pattern of the list; left at the first that it does not.
fn passes_all(planned: Planned, list: &[u32]) -> bool
    ensures { result ≡ passes_all (task planned.entry.sheet.now) planned.entry.plan.0 list.now }
{
    list.iter().all(|pattern| planned.passes(Pattern(*pattern)))
}

// Whether a later plan of this cost would take over from the best so far.
fn improves(best: Option<Candidate>, cost: u32) -> bool
    ensures { result ≡ improves_of best cost }
{
    best.is_none_or(|b| cost < b.cost)
}

// Whether a plan is known to fail the list, where `last` was the candidate before the newest pattern was
// listed: it fails that pattern, and a plan that is better than it fails an earlier one.
fn known_to_fail(last: Option<Candidate>, new: Candidate) -> bool
    ensures { result ≡ fails_of last new.cost new.plan.0 }
{
    last.is_some_and(|l| new <= l)
}

// The better of the best so far and the next plan. Its cost is looked at first: a plan that costs no
// less, or is known to fail, is left before any pattern is tried.
fn with_plan(
    planned: Planned,
    list: &[u32],
    last: Option<Candidate>,
    best: Option<Candidate>,
) -> Option<Candidate>
    requires { Fails (task planned.sheet.now) list.now last × Priced (task planned.sheet.now) best × (planned.plan.0 < plans planned.sheet.now) }
    ensures { (best_of result ≡ keep (meaning.cost planned.entry.sheet.now) (passes_all (task planned.entry.sheet.now) planned.entry.plan.0 list.now) planned.entry.plan.0 (best_of best)) × Priced (task planned.entry.sheet.now) result }
{
    let new = Candidate {
        plan: planned.plan,
        cost: planned.cost(),
    };
    if !known_to_fail(last, new) && improves(best, new.cost) && passes_all(planned, list) {
        Some(new)
    } else {
        best
    }
}

// The best plan that passes everything listed. `last` is the candidate before the newest pattern was
// listed, if one is known.
pub fn best_plan(sheet: &Sheet, list: &[u32], last: Option<Candidate>) -> Option<Candidate>
    requires { Fails (task sheet.now) list.now last }
    ensures { (best_of result ≡ rule.best (task sheet.now) list.now) × Priced (task sheet.now) result }
{
    let end = power(sheet.counts().switches);
    let mut best = None;
    for i in 0..end {
        let planned = Planned {
            sheet: &*sheet,
            plan: Plan(i),
        };
        best = with_plan(planned, list, last, best);
    }
    best
}
