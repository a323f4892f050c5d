// Wish lines.
ghost use Rattle.std.specs.Prelude.{false, ◌≡◌, ◌+◌, ◌≤◌, ◌<◌, length};
ghost use Rattle.scope.specs.Sheet.{most_literals};
ghost use Rattle.scope.specs.Typed.{most_text, most_number};
ghost use Rattle.scanner.specs.Look as place;
ghost use Rattle.text.specs.Lines.{wish_letter, NoMore, Later};
ghost use Rattle.text.specs.Wishes.{WithLiteral, one_literal, LiteralRead, OneMore, LiteralsRead, literal_follows, more_literals, WeightRead, WishesTold, WishesRead, WithWish};

use crate::lines::{Lines, tests};
use formula::points::Points;
use scanner::reader::{BANG, next_is, past_byte};
use scanner::token::{Digits, Stuck, Token, named_at, word_at};
use words::Words;
use words::byte::{FEED, SPACE};
use words::limit::{MOST_LITERALS, MOST_WISHES};
use words::literal::Literal;
use words::refusal::{Refusal, require};
use words::wish::{DEFAULT_WEIGHT, is_weight, put_wish};

const WISH: u8 = b'w';

// where a weight begins
const WEIGHT: u8 = b'w';

// The literals of a wish so far: the place after them, how many, their codes and then zeros, and whether all are of switches on the sheet.
// (An array of which so many count, as there is no heap.)
#[derive(Clone, Copy)]
pub struct Literals {
    pub at: usize,
    pub count: usize,
    pub codes: [u32; MOST_LITERALS],
    pub known: bool,
}

// One literal, which begins at `at`, and the place after it.
fn literal_at(s: &[u8], at: usize) -> Result<(Literal, usize), Stuck>
    requires { at ≤ length s.now }
    ensures { LiteralRead one_literal s.now at result }
{
    let name = past_byte(s, at, BANG);
    let k = named_at(s, name, b"s", false, Digits::Two)?;
    let literal = Literal {
        minus: at < name,
        switch: k.value,
    };
    Ok((literal, k.at))
}

// The literals with one more, which ends before `at`.
fn with_literal(w: Literals, literal: Literal, at: usize, switches: u32) -> Literals
    requires { (w.count < most_literals) × (literal.switch ≤ most_number) }
    ensures { WithLiteral switches w literal at result }
{
    let mut codes = w.codes;
    codes[w.count] = literal.code();
    Literals {
        at,
        count: w.count + 1,
        codes,
        known: w.known && literal.switch <= switches,
    }
}

// The literals with one more, which begins at `at`.
fn add_literal(s: &[u8], at: usize, switches: u32, w: Literals) -> Result<Literals, Stuck>
    requires { (at ≤ length s.now) × (w.count < most_literals) }
    ensures { OneMore s.now switches at w result }
{
    let (literal, end) = literal_at(s, at)?;
    Ok(with_literal(w, literal, end, switches))
}

// Whether a space stands there, and no weight begins after it.
fn literal_follows(s: &[u8], at: usize) -> bool
    ensures { result ≡ literal_follows s.now at }
{
    next_is(s, at, SPACE) && !next_is(s, at + 1, WEIGHT)
}

// Whether one more literal comes next.
fn more_literals(s: &[u8], w: Literals) -> bool
    ensures { result ≡ more_literals s.now w }
{
    w.count < MOST_LITERALS && literal_follows(s, w.at)
}

// One to three literals.
fn literals_at(s: &[u8], at: usize, switches: u32) -> Result<Literals, Stuck>
    requires { at ≤ length s.now }
    ensures { LiteralsRead s.now switches at result }
{
    let none = Literals {
        at,
        count: 0,
        codes: [0; MOST_LITERALS],
        known: true,
    };
    let mut w = add_literal(s, at, switches, none)?;
    while more_literals(s, w) {
        w = add_literal(s, w.at + 1, switches, w)?;
    }
    Ok(w)
}

// The weight of a wish, if it is written, and the line feed.
fn weight_at(s: &[u8], at: usize) -> Result<Token, Stuck>
    requires { at ≤ length s.now }
    ensures { WeightRead s.now at result }
{
    if next_is(s, at, FEED) {
        return Ok(Token {
            at: at + 1,
            value: DEFAULT_WEIGHT,
        });
    }
    let weight = named_at(s, at, b" weight ", true, Digits::Four)?;
    let end = word_at(s, weight.at, b"\n")?;
    Ok(Token { at: end, ..weight })
}

// The lines with one more wish, of this weight; whether its literals are all on the sheet.
fn with_wish(l: Lines, known: bool, weight: Token) -> Lines
    requires { l.rules + l.wishes ≤ most_text }
    ensures { WithWish l known weight result }
{
    let weighs = require(is_weight(weight.value), Refusal::Weight);
    let tested = tests(l.wishes < MOST_WISHES, known).and(weighs);
    Lines {
        at: weight.at,
        wishes: l.wishes + 1,
        fault: l.fault_with(tested),
        ..l
    }
}

// One more line, which begins as a wish does.
fn wish_line(s: &[u8], l: Lines, c: Points, words: &mut Words) -> Result<Lines, Stuck>
    requires { WishesTold s.now c l words.old × (place.look s.now l.at ≡ wish_letter) }
    ensures { WishesRead s.now c result words.new × Later l.at result }
{
    let at = word_at(s, l.at, b"wish ")?;
    let w = literals_at(s, at, c.switches)?;
    let weight = weight_at(s, w.at)?;
    let [first, second, third] = w.codes;
    put_wish(words, [first, second, third, weight.value]);
    Ok(with_wish(l, w.known, weight))
}

// All wish lines.
pub fn wish_lines(s: &[u8], rules: Lines, c: Points, words: &mut Words) -> Result<Lines, Stuck>
    requires { WishesTold s.now c rules words.old }
    ensures { WishesRead s.now c result words.new × NoMore s.now wish_letter result }
{
    let mut l = rules;
    while next_is(s, l.at, WISH) {
        l = wish_line(s, l, c, words)?;
    }
    Ok(l)
}
