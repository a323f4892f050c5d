// The tests of the lines on which a held sheet would stand, made on its words. The lines stand in order and their unused fields hold 0,
// so that what is left to test are ranges, limits, what the fields name, and weights.
ghost use Rattle.std.specs.Prelude.{◌≡◌, ◌≤◌};
ghost use Rattle.scope.specs.Causes.{literals};
ghost use Rattle.words.specs.Entries.{gate_from};
ghost use Rattle.words.specs.Refusals.{Tested};
ghost use Rattle.writer.specs.Entries.{before_end};
ghost use Rattle.writer.specs.Tested.{named, literals_of, tests_of, line_tests};

use crate::entries::{Entry, entry_on};
use crate::lines::number;
use causes::allowed::{are_literals, is_head, is_point};
use field::Number;
use words::Words;
use words::counts::{Counts, counts_of};
use words::gate::{Gate, gate_words};
use words::limit::{MOST_GATES, MOST_LITERALS, MOST_RULES, MOST_WISHES};
use words::refusal::{Refusal, require};
use words::rule::rule_at;
use words::wish::{is_weight, wish_at};

// The words may be any that C lends. What fields may hold is asked of `causes`, as the reader asks it.

// Whether a gate names points of m.
#[tactic(auto, unfolding(crate::specs::Tested::named))]
fn names(gate: Gate, m: usize) -> bool
    ensures { result ≡ named m (gate_from gate) }
{
    match gate {
        Gate::Not(p) => is_point(Number::from(p), m),
        Gate::And(p, q) | Gate::Or(p, q) => {
            is_point(Number::from(p), m) && is_point(Number::from(q), m)
        }
    }
}

// Whether literals of a switches come first and zeros fill up.
fn is_clause(codes: [u32; MOST_LITERALS], a: u32) -> bool
    ensures { result ≡ literals a (literals_of codes) }
{
    are_literals(&codes.map(number), a)
}

// Each of these makes the tests of its line. A line beyond the limit is not looked at. (One function for the three kinds of entry, with
// a closure for the fields, would be as long: two tests are all that they share.)

fn head_fault(words: &Words) -> Result<(), Refusal>
    ensures { Tested (tests_of words.now Entry.Head) result }
{
    let c = counts_of(words);
    require(
        is_head(Number::from(c.switches), Number::from(c.faults)),
        Refusal::Range,
    )
}

fn gate_fault(words: &Words, i: usize) -> Result<(), Refusal>
    ensures { Tested (tests_of words.now (Entry.Gate i)) result }
{
    require(i < MOST_GATES as usize, Refusal::Limit)?;
    let gate = Gate::try_from(gate_words(words, i))?;
    let before = Counts {
        gates: i as u32,
        ..counts_of(words)
    };
    require(names(gate, before.points()), Refusal::Fields)
}

fn rule_fault(words: &Words, i: usize) -> Result<(), Refusal>
    ensures { Tested (tests_of words.now (Entry.Rule i)) result }
{
    require(i < MOST_RULES as usize, Refusal::Limit)?;
    let point = Number::from(rule_at(words, i));
    require(is_point(point, counts_of(words).points()), Refusal::Fields)
}

fn wish_fault(words: &Words, i: usize) -> Result<(), Refusal>
    ensures { Tested (tests_of words.now (Entry.Wish i)) result }
{
    require(i < MOST_WISHES as usize, Refusal::Limit)?;
    let c = counts_of(words);
    let [x, y, z, weight] = wish_at(words, i);
    require(is_clause([x, y, z], c.switches), Refusal::Fields)?;
    require(is_weight(weight), Refusal::Weight)
}

// The tests of line k, counted from 0.
pub fn fault_at(words: &Words, k: usize) -> Result<(), Refusal>
    requires { k ≤ before_end words.now }
    ensures { Tested (line_tests words.now k) result }
{
    match entry_on(words, k) {
        Entry::Head => head_fault(words),
        Entry::Gate(i) => gate_fault(words, i),
        Entry::Rule(i) => rule_fault(words, i),
        Entry::Wish(i) => wish_fault(words, i),
        Entry::End => Ok(()),
    }
}
