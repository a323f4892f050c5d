// One round of the list rule, and the full run.
ghost use Rattle.std.specs.Prelude.{ℕ, List, ◌≡◌};
ghost use Rattle.scope.specs.Rule.{missed_by};
ghost use Rattle.scope.specs.Rule as rule;
ghost use Rattle.scope.specs.Jobs.{task};
ghost use Rattle.circuit.specs.Answers.{missed_of};
ghost use Rattle.search.specs.Answers.{best_of, Priced, Ran};
ghost use Rattle.search.specs.Steps.{Stepped};

use crate::best::{Candidate, best_plan};
use circuit::planned::Planned;
use words::Pattern;
use words::sheet::Sheet;

// The list is longer than its room.
#[derive(Clone, Copy)]
pub struct NoRoom;

// Where a run has come to: the best plan, if there is room for the list, and the list's length.
#[derive(Clone, Copy)]
pub struct Run {
    pub best: Result<Option<Candidate>, NoRoom>,
    pub length: usize,
}

// The pattern to list next: the smallest that the candidate misses. There is none if there is no candidate,
// or it is sound. Over any list whose best plan the candidate is, this is a round of the list rule.
fn next(sheet: &Sheet, candidate: Option<Candidate>) -> Option<Pattern>
    ensures missed { missed_of result ≡ missed_by (task sheet.now) (best_of candidate) }
    ensures stepped { (l : List ℕ) → best_of candidate ≡ rule.best (task sheet.now) l → Priced (task sheet.now) candidate → Stepped (task sheet.now) l candidate result }
{
    let plan = candidate?.plan;
    Planned { sheet, plan }.first_missed()
}

// Rounds until the run ends: the list goes into `list`, and words after it keep their content. A `for` over the room would have the last
// round, which finds whether the list is longer, once more behind it. The length stands beside the list, as C gets both.
pub fn run_rounds(sheet: &Sheet, list: &mut [u32]) -> Run
    ensures { Ran (task sheet.now) list.old result list.new }
{
    let mut length = 0;
    let mut last = None;
    loop {
        let candidate = best_plan(sheet, &list[..length], last);
        let Some(pattern) = next(sheet, candidate) else {
            return Run {
                best: Ok(candidate),
                length,
            };
        };
        if length == list.len() {
            return Run {
                best: Err(NoRoom),
                length,
            };
        }
        list[length] = pattern.0;
        length += 1;
        last = candidate;
    }
}
