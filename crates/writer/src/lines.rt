// The lines of a valid held sheet, one by one.
ghost use Rattle.std.specs.Prelude.{[], ◌∷◌, ◌≡◌, ◌≤◌};
ghost use Rattle.scope.specs.Sheet.{plus, line, field_count, filled, gate_line, wish_line, Valid};
ghost use Rattle.scope.specs.Words.{literal_from, held};
ghost use Rattle.field.specs.Columns.{number_from};
ghost use Rattle.line.specs.Lines.{letter_from, layout_of, line_from};
ghost use Rattle.words.specs.Entries.{gate_from, wish_of_words};
ghost use Rattle.writer.specs.Entries.{before_end};
ghost use Rattle.writer.specs.Lines.{line_at};

use crate::entries::{Entry, entry_on};
use field::Number;
use line::{Letter, Line};
use words::Words;
use words::counts::counts_of;
use words::gate::Gate;
use words::limit::MOST_LITERALS;
use words::literal::Literal;
use words::rule::rule_at;
use words::sheet::valid_gate;
use words::wish::{WishWords, wish_at};

// What N may be is asked by each of these. It is a fact of `Lines`, but they look at no words, and so are no methods of it.

// The line of these numbers, and zeros behind them. They are put one by one: copied as a part of an array they pass through memory, and
// writing a full sheet misses its bar.
fn line_of<const N: usize>(letter: Letter, x: Number, y: Number, z: Number) -> Line<N>
    requires { 3 ≤ N }
    ensures { line_from result ≡ line (letter_from letter) (filled N (number_from x ∷ number_from y ∷ number_from z ∷ [])) }
{
    let mut numbers = [Number::from(0); N];
    numbers[0] = x;
    numbers[1] = y;
    numbers[2] = z;
    Line { letter, numbers }
}

// The line of two numbers that are not below 0.
fn plain_line<const N: usize>(letter: Letter, x: u32, y: u32) -> Line<N>
    requires { (3 ≤ N) × (N ≤ 4) }
    ensures { line_from result ≡ line (letter_from letter) (filled (field_count (layout_of N)) (plus x ∷ plus y ∷ [])) }
{
    line_of(letter, Number::from(x), Number::from(y), Number::from(0))
}

// An entry as its line: by functions, since a `From` may ask for nothing, and these types are of other crates.

fn gate_line<const N: usize>(gate: Gate) -> Line<N>
    requires { (3 ≤ N) × (N ≤ 4) }
    ensures { line_from result ≡ gate_line (layout_of N) (gate_from gate) }
{
    match gate {
        Gate::Not(p) => plain_line(Letter::Not, p, 0),
        Gate::And(p, q) => plain_line(Letter::And, p, q),
        Gate::Or(p, q) => plain_line(Letter::Or, p, q),
    }
}

// 2k as k, 2k + 1 as -k, and so 0 as 0.
pub(crate) fn number(code: u32) -> Number
    ensures { number_from result ≡ literal_from code }
{
    Number::from(Literal::from(code))
}

// A word 0 stands for no literal, and its number is 0. The weight has a field where there are four.
fn wish_line<const N: usize>(wish: WishWords) -> Line<N>
    requires { (3 ≤ N) × (N ≤ 4) }
    ensures { line_from result ≡ wish_line (layout_of N) (wish_of_words wish) }
{
    let [x, y, z, weight] = wish;
    let mut line = line_of(Letter::Wish, number(x), number(y), number(z));
    if MOST_LITERALS < N {
        line.numbers[MOST_LITERALS] = Number::from(weight);
    }
    line
}

// The sheet that these words hold, as lines of N fields.
#[derive(Clone, Copy)]
pub struct Lines<'a, const N: usize> {
    pub words: &'a Words,
    ghost fields: { (3 ≤ N) × (N ≤ 4) },
}

impl<const N: usize> Lines<'_, N> {
    // Line k, counted from 0.
    pub fn at(self, k: usize) -> Line<N>
        requires valid { Valid (held self.words.now) }
        requires within { k ≤ before_end self.words.now }
        ensures { line_from result ≡ line_at (layout_of N) self.entry.words.now k }
    {
        match entry_on(self.words, k) {
            Entry::Head => {
                let c = counts_of(self.words);
                plain_line(Letter::Head, c.switches, c.faults)
            }
            Entry::Gate(i) => gate_line(valid_gate(self.words, i)),
            Entry::Rule(i) => plain_line(Letter::Rule, rule_at(self.words, i), 0),
            Entry::Wish(i) => wish_line(wish_at(self.words, i)),
            Entry::End => plain_line(Letter::End, k as u32, 0),
        }
    }
}
