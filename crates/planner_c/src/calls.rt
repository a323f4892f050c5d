// The calls for C and Rust. Each returns the number, or the length of a listing, and writes every other figure through a pointer, as C
// has no `Result` and no `Option`; and each form has calls of its own, as C has no parameters for types.
ghost use Rattle.std.specs.Prelude.{[], ◌∷◌, ◌≡◌, IfOk, IfErr};
ghost use Rattle.scope.specs.Sheet.{weighted};
ghost use Rattle.scope.specs.Sheets.{SheetRead};
ghost use Rattle.scope.specs.Texts.{TextRead};
ghost use Rattle.scope.specs.Source.{Gives};
ghost use Rattle.scope.specs.Jobs as jobs;
ghost use Rattle.scope.specs.Jobs.{answered, IsAnswer, IsShortRun};
ghost use Rattle.scope.specs.Writing.{written, IsWritten};
ghost use Rattle.scope.specs.Program.{listing_result, IsListing};
ghost use Rattle.scope.specs.Filling.{read_result, IsRead};
ghost use Rattle.jobs.specs.Figures.{result_of, rating_of, figures, rating_figures};
ghost use Rattle.words.specs.Refusals.{number_of};

use jobs::outcome::{Outcome, Rating};
use planner::{Fixed, Typed};
use words::refusal::Cause;
use words::{Plan, Words};
use writer::write::write;

// the number where nothing is refused
const DONE: u32 = 0;

// Hands a cause out, or that there is none.
fn hand_cause(done: Result<(), Cause>, place: &mut usize, column: &mut usize) -> u32
    ensures none { IfOk done (λ u. (result ≡ 0) × (place.new ≡ 0) × (column.new ≡ 0)) }
    ensures cause { IfErr done (λ c. (result ≡ number_of c.refusal) × (place.new ≡ c.place) × (column.new ≡ c.column)) }
{
    match done {
        Ok(()) => {
            *place = 0;
            *column = 0;
            DONE
        }
        Err(cause) => {
            *place = cause.place;
            *column = cause.column;
            u32::from(cause.refusal)
        }
    }
}

// Hands the figures out. Those of a plan are 0 where there is none. A rating's are others, and `hand_cause` has what both share.
fn hand_out(
    outcome: Outcome,
    place: &mut usize,
    column: &mut usize,
    plan: &mut u32,
    cost: &mut u32,
    length: &mut usize,
) -> u32
    ensures { figures result place.new column.new plan.new cost.new length.new ≡ result_of outcome }
{
    *length = outcome.length;
    match outcome.answer {
        Ok(best) => {
            *plan = best.plan.0;
            *cost = best.cost;
            hand_cause(Ok(()), place, column)
        }
        Err(cause) => {
            *plan = 0;
            *cost = 0;
            hand_cause(Err(cause), place, column)
        }
    }
}

fn hand_out_rating(
    rating: Result<Rating, Cause>,
    place: &mut usize,
    column: &mut usize,
    cost: &mut u32,
    sound: &mut u32,
    pattern: &mut u32,
    length: &mut usize,
) -> u32
    ensures { rating_figures (rating_of rating) ≡ result ∷ place.new ∷ column.new ∷ cost.new ∷ sound.new ∷ pattern.new ∷ length.new ∷ [] }
{
    *length = 0;
    match rating {
        Ok(Rating { cost: c, missed }) => {
            *cost = c;
            *sound = u32::from(missed.is_none());
            *pattern = missed.map_or(0, |q| q.0);
            hand_cause(Ok(()), place, column)
        }
        Err(cause) => {
            *cost = 0;
            *sound = 0;
            *pattern = 0;
            hand_cause(Err(cause), place, column)
        }
    }
}

#[unsafe(no_mangle)]
pub extern "C" fn comzsered_answer(
    sheet: &[u8],
    list: &mut [u32],
    place: &mut usize,
    column: &mut usize,
    plan: &mut u32,
    cost: &mut u32,
    length: &mut usize,
) -> u32
    ensures { IsAnswer (SheetRead weighted sheet.now) list.old (answered (figures result place.new column.new plan.new cost.new length.new) list.new) }
{
    hand_out(
        planner::answer::<Fixed>(sheet, list),
        place,
        column,
        plan,
        cost,
        length,
    )
}

#[unsafe(no_mangle)]
pub extern "C" fn comzsered_short_run(
    sheet: &[u8],
    patterns: &[u32],
    place: &mut usize,
    column: &mut usize,
    plan: &mut u32,
    cost: &mut u32,
    length: &mut usize,
) -> u32
    ensures { IsShortRun (SheetRead weighted sheet.now) patterns.now (figures result place.new column.new plan.new cost.new length.new) }
{
    hand_out(
        planner::short_run::<Fixed>(sheet, patterns),
        place,
        column,
        plan,
        cost,
        length,
    )
}

#[unsafe(no_mangle)]
pub extern "C" fn comzsered_rating(
    sheet: &[u8],
    plan: u32,
    place: &mut usize,
    column: &mut usize,
    cost: &mut u32,
    sound: &mut u32,
    pattern: &mut u32,
    length: &mut usize,
) -> u32
    ensures { Gives (SheetRead weighted sheet.now) (λ q. rating_figures (jobs.rating_of q plan)) (result ∷ place.new ∷ column.new ∷ cost.new ∷ sound.new ∷ pattern.new ∷ length.new ∷ []) }
{
    hand_out_rating(
        planner::rate::<Fixed>(sheet, Plan(plan)),
        place,
        column,
        cost,
        sound,
        pattern,
        length,
    )
}

#[unsafe(no_mangle)]
pub extern "C" fn comzsered_listing(sheet: &[u8], out: &mut [u8]) -> usize
    ensures { IsListing (SheetRead weighted sheet.now) out.old (listing_result result out.new) }
{
    planner::print_listing::<Fixed>(sheet, out).unwrap_or(0)
}

// The same for a typed text.

#[unsafe(no_mangle)]
pub extern "C" fn comzsered_text_answer(
    text: &[u8],
    list: &mut [u32],
    place: &mut usize,
    column: &mut usize,
    plan: &mut u32,
    cost: &mut u32,
    length: &mut usize,
) -> u32
    ensures { IsAnswer (TextRead text.now) list.old (answered (figures result place.new column.new plan.new cost.new length.new) list.new) }
{
    hand_out(
        planner::answer::<Typed>(text, list),
        place,
        column,
        plan,
        cost,
        length,
    )
}

#[unsafe(no_mangle)]
pub extern "C" fn comzsered_text_short_run(
    text: &[u8],
    patterns: &[u32],
    place: &mut usize,
    column: &mut usize,
    plan: &mut u32,
    cost: &mut u32,
    length: &mut usize,
) -> u32
    ensures { IsShortRun (TextRead text.now) patterns.now (figures result place.new column.new plan.new cost.new length.new) }
{
    hand_out(
        planner::short_run::<Typed>(text, patterns),
        place,
        column,
        plan,
        cost,
        length,
    )
}

#[unsafe(no_mangle)]
pub extern "C" fn comzsered_text_rating(
    text: &[u8],
    plan: u32,
    place: &mut usize,
    column: &mut usize,
    cost: &mut u32,
    sound: &mut u32,
    pattern: &mut u32,
    length: &mut usize,
) -> u32
    ensures { Gives (TextRead text.now) (λ q. rating_figures (jobs.rating_of q plan)) (result ∷ place.new ∷ column.new ∷ cost.new ∷ sound.new ∷ pattern.new ∷ length.new ∷ []) }
{
    hand_out_rating(
        planner::rate::<Typed>(text, Plan(plan)),
        place,
        column,
        cost,
        sound,
        pattern,
        length,
    )
}

#[unsafe(no_mangle)]
pub extern "C" fn comzsered_text_listing(text: &[u8], out: &mut [u8]) -> usize
    ensures { IsListing (TextRead text.now) out.old (listing_result result out.new) }
{
    planner::print_listing::<Typed>(text, out).unwrap_or(0)
}

// Tables from a sheet and from a typed text, and a sheet from its tables.

#[unsafe(no_mangle)]
pub extern "C" fn comzsered_read(
    sheet: &[u8],
    tables: &mut Words,
    place: &mut usize,
    column: &mut usize,
) -> u32
    ensures { IsRead (SheetRead weighted sheet.now) tables.old (read_result result place.new column.new tables.new) }
{
    hand_cause(planner::read::<Fixed>(sheet, tables), place, column)
}

#[unsafe(no_mangle)]
pub extern "C" fn comzsered_text_read(
    text: &[u8],
    tables: &mut Words,
    place: &mut usize,
    column: &mut usize,
) -> u32
    ensures { IsRead (TextRead text.now) tables.old (read_result result place.new column.new tables.new) }
{
    hand_cause(planner::read::<Typed>(text, tables), place, column)
}

#[unsafe(no_mangle)]
pub extern "C" fn comzsered_write(
    tables: &Words,
    out: &mut [u8],
    place: &mut usize,
    column: &mut usize,
    length: &mut usize,
) -> u32
    ensures { IsWritten tables.now out.old (written result place.new column.new length.new out.new) }
{
    match write(tables, out) {
        Ok(n) => {
            *length = n;
            hand_cause(Ok(()), place, column)
        }
        Err(cause) => {
            *length = 0;
            hand_cause(Err(cause), place, column)
        }
    }
}
