// Reading a sheet: its length is tested, then the lines from the first, each of which is put into the words or turns the sheet down.
ghost use Rattle.std.specs.Prelude.{◌≡◌, ◌≤◌, ◌<◌, true, length, take};
ghost use Rattle.scope.specs.Sheet as scope;
ghost use Rattle.scope.specs.Sheet.{wish, weighted, most_literals};
ghost use Rattle.scope.specs.Causes.{clause, started, weight_on, line_size, length_ok};
ghost use Rattle.scope.specs.Sheets.{SheetRead};
ghost use Rattle.scope.specs.Words.{literal_code, wish_words, words_of};
ghost use Rattle.field.specs.Columns.{number_from};
ghost use Rattle.words.specs.Entries.{counts_from};
ghost use Rattle.words.specs.Told.{Fills};
ghost use Rattle.line.specs.Lines.{layout_of, numbers_from, line_from};
ghost use Rattle.sheet.specs.Steps.{AreLiterals, Suited, Takes, LineTold};

use causes::Place;
use field::Number;
use line::{Letter, Line, WEIGHTED_FIELDS, line_at, line_size};
use words::counts::{counts_of, put_head};
use words::gate::{Gate, put_gate};
use words::limit::MOST_LINES;
use words::literal::Literal;
use words::refusal::{Cause, Refusal};
use words::rule::put_rule;
use words::wish::{WishWords, put_wish};
use words::{WORDS, Words};

// In promises `3 ≤ N` and `N ≤ 4` say which layouts there may be. A type with these facts would have no field, and be handed through
// the same functions.

// ---- a line that met its tests, into the words

fn code(x: Number) -> u32
    requires { x.size ≤ 99 }
    ensures { result ≡ literal_code (number_from x) }
{
    Literal::from(x).code()
}

// The words of the wish that a line says. Its codes one by one: of each field it is shown that it has a code.
#[tactic(auto, using(crate::proofs::Literals::code_fits))]
fn wish_words<const N: usize>(line: &Line<N>) -> WishWords
    requires wide { 3 ≤ N }
    requires literals { AreLiterals (take most_literals (numbers_from line.now.numbers)) }
    ensures { result ≡ wish_words (wish (clause (take most_literals (numbers_from line.now.numbers))) (weight_on (layout_of N) (numbers_from line.now.numbers)).size) }
{
    let numbers = &line.numbers;
    [
        code(numbers[0]),
        code(numbers[1]),
        code(numbers[2]),
        line.weight().size,
    ]
}

// By a match: each letter has an entry of its own.
fn take_line<const N: usize>(words: &mut Words, line: &Line<N>)
    requires wide { 3 ≤ N }
    requires suited { Suited (line_from line.now) }
    ensures { Takes (layout_of N) (line_from line.now) words.old words.new }
{
    let x = line.numbers[0].size;
    let y = line.numbers[1].size;
    match line.letter {
        Letter::Head => put_head(words, x, y),
        Letter::Not => put_gate(words, Gate::Not(x)),
        Letter::And => put_gate(words, Gate::And(x, y)),
        Letter::Or => put_gate(words, Gate::Or(x, y)),
        Letter::Rule => put_rule(words, x),
        Letter::Wish => put_wish(words, wish_words(line)),
        Letter::End => {}
    }
}

// ---- line by line

// The line at a place, if it is formed and meets its tests.
fn line_in<const N: usize>(bytes: &[u8], place: &Place<N>) -> Result<Line<N>, Cause>
    requires whole { length bytes.now ≡ line_size N }
    requires counted { place.now.index < usize.MAX }
    ensures { (t : scope.Sheet) → place.now.before ≡ counts_from t → LineTold N bytes.now t place.now.index place.now.last result }
{
    let number = place.index + 1;
    let line = line_at::<N>(bytes).map_err(|stop| Cause {
        refusal: Refusal::Malformed,
        place: number,
        column: stop.column,
    })?;
    place
        .fault(&line)
        .map_err(|refusal| Cause::at(refusal, number))?;
    Ok(line)
}

// The lines of a sheet whose length is right, into words of zeros. Not inlined, so that what is around it is: then a caller's own zeros
// and those of `read_layout` are put once.
#[inline(never)]
fn read_lines<const N: usize>(s: &[u8], words: &mut Words) -> Result<(), Cause>
    requires fields { (3 ≤ N) × (N ≤ 4) }
    requires right { length_ok N (length s.now) ≡ true }
    requires blank { words.old ≡ words_of (started 0 0) }
    ensures { Fills (SheetRead (layout_of N) s.now) result words.new }
{
    let size = line_size(N);
    let count = s.len() / size;
    for (k, bytes) in s.chunks_exact(size).enumerate() {
        let place = Place::<N> {
            before: counts_of(words),
            index: k,
            last: k + 1 == count,
        };
        let line = line_in::<N>(bytes, &place)?;
        take_line(words, &line);
    }
    Ok(())
}

// Whether so many bytes make whole lines of N fields, not too many.
fn is_length<const N: usize>(bytes: usize) -> bool
    requires { N ≤ 4 }
    ensures { result ≡ length_ok N bytes }
{
    let size = line_size(N);
    0 < bytes && (bytes <= MOST_LINES * size && bytes % size == 0)
}

// A sheet whose lines have N fields.
#[inline(always)]
fn read_layout<const N: usize>(s: &[u8], words: &mut Words) -> Result<(), Cause>
    requires { (3 ≤ N) × (N ≤ 4) }
    ensures { Fills (SheetRead (layout_of N) s.now) result words.new }
{
    if !is_length::<N>(s.len()) {
        return Err(Cause::at(Refusal::Length, 0));
    }
    *words = [0; WORDS];
    read_lines::<N>(s, words)
}

// Fills the words with what a sheet says, or tells the first cause to turn it down. The words are lent: handed back by value, they are
// copied several times, and Answer of the smallest sheet misses its bar.
#[inline(always)]
pub fn read(s: &[u8], words: &mut Words) -> Result<(), Cause>
    ensures { Fills (SheetRead weighted s.now) result words.new }
{
    read_layout::<WEIGHTED_FIELDS>(s, words)
}
