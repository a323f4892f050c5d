// Rating: the cost of a plan, whether it is sound, and the smallest pattern that it does not pass.
ghost use Rattle.std.specs.Prelude.{◌≡◌};
ghost use Rattle.scope.specs.Causes.{accepted};
ghost use Rattle.scope.specs.Jobs as jobs;
ghost use Rattle.jobs.specs.Figures.{rating_of};

use crate::outcome::Rating;
use circuit::planned::Planned;
use circuit::rule::power;
use words::Plan;
use words::refusal::{Cause, Refusal};
use words::sheet::Sheet;

// Sheet and plan apart, since the plan is a caller's, and may be too high.
pub fn rate(sheet: &Sheet, plan: Plan) -> Result<Rating, Cause>
    ensures { rating_of result ≡ jobs.rating_of (accepted sheet.now) plan.0 }
{
    if power(sheet.counts().switches) <= plan.0 {
        return Err(Cause::at(Refusal::HighPlan, 0));
    }
    let planned = Planned { sheet, plan };
    Ok(Rating {
        cost: planned.cost(),
        missed: planned.first_missed(),
    })
}
