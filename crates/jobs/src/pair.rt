// Demand 3 as a function: Answer, then Short run over the words that it listed, and Short run over the first of them.
ghost use Rattle.std.specs.Prelude.{◌≡◌};
ghost use Rattle.scope.specs.Causes.{accepted};
ghost use Rattle.scope.specs.Demands.{Runs};
ghost use Rattle.jobs.specs.Figures.{result_of, answer_from};

use crate::answer::{answer, short_run};
use crate::outcome::PairRuns;
use words::sheet::Sheet;

// Nobody writes the list in between, and all three are handed the same sheet. The last call gets the first `j` words
// listed, or all of them if there are fewer.
pub fn run_pair(sheet: &Sheet, list: &mut [u32], j: usize) -> PairRuns
    ensures { Runs (accepted sheet.now) list.old j (answer_from result.full list.new) (result_of result.short) (result_of result.front) }
{
    let full = answer(sheet, list);
    let listed = &list[..full.length];
    let short = short_run(sheet, listed);
    let front = short_run(sheet, &listed[..j.min(listed.len())]);
    PairRuns { full, short, front }
}
