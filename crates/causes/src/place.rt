// The causes to turn a line down, tested in the order of the scope's tests: a function for each kind of line tells the refusal of the
// first test that is not met. t in a promise is what the lines before say, of which the code has the counts: a ghost field of `Place`
// would hold a fact, and no sheet.
ghost use Rattle.std.specs.Prelude.{◌≡◌, ◌≤◌, not, ◌&&◌, eqb};
ghost use Rattle.scope.specs.Sheet.{Sheet, points, H as Head, R as Rule, W as Wish, Z as End};
ghost use Rattle.scope.specs.Causes.{gate_tests, is, tests};
ghost use Rattle.scope.specs.Reading.{tests_of};
ghost use Rattle.words.specs.Refusals.{Tested};
ghost use Rattle.words.specs.Entries.{counts_from};
ghost use Rattle.field.specs.Columns.{number_from};
ghost use Rattle.line.specs.Lines.{layout_of, letter_from, line_if_formed, numbers_from};
ghost use Rattle.causes.specs.Counts.{Few};
ghost use Rattle.causes.specs.Tests.{tests_from};

use crate::allowed::{are_literals, are_points, are_unused, is_head, is_weight};
use field::{Malformed, Number};
use line::{Letter, Line};
use words::counts::Counts;
use words::limit::{MOST_GATES, MOST_LITERALS, MOST_RULES, MOST_WISHES};
use words::refusal::{Refusal, require};

// Where a line of N fields stands: the counts of what the lines before it say, how many lines they are, and whether no line comes after.
#[derive(Clone, Copy)]
pub struct Place<const N: usize> {
    pub before: Counts,
    pub index: usize,
    pub last: bool,
    ghost few: { Few before },
    ghost fields: { 3 ≤ N },
}

// The first of several tests that is not met, each with the refusal that it spares. The scope lists them so, and one proof does for all
// kinds of lines, where tests by `require(..)?` would be a proof for each.
fn first_fault(tests: &[(bool, Refusal)]) -> Result<(), Refusal>
    ensures { Tested (tests_from tests.now) result }
{
    for (met, refusal) in tests {
        require(*met, *refusal)?;
    }
    Ok(())
}

impl<const N: usize> Place<N> {
    fn is_first(&self) -> bool
        ensures { result ≡ (eqb self.now.index 0 && not self.now.last) }
    {
        self.index == 0 && !self.last
    }

    // Neither the first line nor the last.
    fn is_between(&self) -> bool
        ensures { result ≡ (not (eqb self.now.index 0) && not self.now.last) }
    {
        self.index != 0 && !self.last
    }

    fn is_last(&self) -> bool
        ensures { result ≡ (not (eqb self.now.index 0) && self.now.last) }
    {
        self.index != 0 && self.last
    }

    fn is_before_wishes(&self) -> bool
        ensures { result ≡ ((not (eqb self.now.index 0) && not self.now.last) && eqb self.now.before.wishes 0) }
    {
        self.is_between() && self.before.wishes == 0
    }

    fn is_before_rules(&self) -> bool
        ensures { result ≡ ((not (eqb self.now.index 0) && not self.now.last) && (eqb self.now.before.rules 0 && eqb self.now.before.wishes 0)) }
    {
        self.is_between() && (self.before.rules == 0 && self.before.wishes == 0)
    }

    // The points that stand before the line: a gate may name no other.
    fn points(&self) -> usize
        ensures { (t : Sheet) → self.now.before ≡ counts_from t → result ≡ points t }
    {
        self.before.points()
    }

    #[tactic(auto, unfolding(scope::specs::Causes::tests))]
    fn head_fault(&self, line: &Line<N>) -> Result<(), Refusal>
        ensures { (t : Sheet) → self.now.before ≡ counts_from t → Tested (tests (layout_of N) t self.now.index self.now.last Head (numbers_from line.now.numbers)) result }
    {
        let numbers = &line.numbers[..];
        first_fault(&[
            (self.is_first(), Refusal::Order),
            (is_head(numbers[0], numbers[1]), Refusal::Range),
            (are_unused(&numbers[2..]), Refusal::Fields),
        ])
    }

    // The kind of a gate makes the test of its fields.
    fn gate_fault(&self, fields: bool) -> Result<(), Refusal>
        ensures { (t : Sheet) → self.now.before ≡ counts_from t → Tested (gate_tests t self.now.index self.now.last fields) result }
    {
        first_fault(&[
            (self.is_before_rules(), Refusal::Order),
            (self.before.gates < MOST_GATES, Refusal::Limit),
            (fields, Refusal::Fields),
        ])
    }

    #[tactic(auto, unfolding(scope::specs::Causes::tests))]
    fn rule_fault(&self, line: &Line<N>) -> Result<(), Refusal>
        ensures { (t : Sheet) → self.now.before ≡ counts_from t → Tested (tests (layout_of N) t self.now.index self.now.last Rule (numbers_from line.now.numbers)) result }
    {
        first_fault(&[
            (self.is_before_wishes(), Refusal::Order),
            (self.before.rules < MOST_RULES, Refusal::Limit),
            (
                are_points::<1>(&line.numbers, self.points()),
                Refusal::Fields,
            ),
        ])
    }

    #[tactic(auto, unfolding(scope::specs::Causes::tests))]
    fn wish_fault(&self, line: &Line<N>) -> Result<(), Refusal>
        ensures { (t : Sheet) → self.now.before ≡ counts_from t → Tested (tests (layout_of N) t self.now.index self.now.last Wish (numbers_from line.now.numbers)) result }
    {
        let literals = are_literals(&line.numbers[..MOST_LITERALS], self.before.switches);
        first_fault(&[
            (self.is_between(), Refusal::Order),
            (self.before.wishes < MOST_WISHES, Refusal::Limit),
            (literals, Refusal::Fields),
            (is_weight(line.weight()), Refusal::Weight),
        ])
    }

    // Whether x is how many lines stand before. There may be more than a `Number` holds, so that it is no equality of numbers.
    fn is_count(&self, x: Number) -> bool
        ensures { result ≡ is self.now.index (number_from x) }
    {
        !x.minus && x.size as usize == self.index
    }

    #[tactic(auto, unfolding(scope::specs::Causes::tests))]
    fn end_fault(&self, line: &Line<N>) -> Result<(), Refusal>
        ensures { (t : Sheet) → self.now.before ≡ counts_from t → Tested (tests (layout_of N) t self.now.index self.now.last End (numbers_from line.now.numbers)) result }
    {
        let numbers = &line.numbers[..];
        first_fault(&[
            (self.is_last(), Refusal::Order),
            (are_unused(&numbers[1..]), Refusal::Fields),
            (self.is_count(numbers[0]), Refusal::Count),
        ])
    }

    // The refusal of the first test that the line does not meet. (By a match: each letter has tests of its own.)
    #[tactic(auto, unfolding(scope::specs::Causes::tests))]
    pub fn fault(&self, line: &Line<N>) -> Result<(), Refusal>
        ensures { (t : Sheet) → self.now.before ≡ counts_from t → Tested (tests (layout_of N) t self.now.index self.now.last (letter_from line.now.letter) (numbers_from line.now.numbers)) result }
    {
        let numbers = &line.numbers[..];
        match line.letter {
            Letter::Head => self.head_fault(line),
            Letter::Not => self.gate_fault(are_points::<1>(numbers, self.points())),
            Letter::And => self.gate_fault(are_points::<2>(numbers, self.points())),
            Letter::Or => self.gate_fault(are_points::<2>(numbers, self.points())),
            Letter::Rule => self.rule_fault(line),
            Letter::Wish => self.wish_fault(line),
            Letter::End => self.end_fault(line),
        }
    }

    // The same of a line as it was read: one that is not formed does not meet the first test.
    pub fn line_fault(&self, line: &Result<Line<N>, Malformed>) -> Result<(), Refusal>
        ensures { (t : Sheet) → self.now.before ≡ counts_from t → Tested (tests_of (layout_of N) t self.now.index self.now.last (line_if_formed line.now)) result }
    {
        match line {
            Ok(line) => self.fault(line),
            Err(_) => Err(Refusal::Malformed),
        }
    }
}
