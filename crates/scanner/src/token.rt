// Words and numbers of a text.
ghost use Rattle.std.specs.Prelude.{◌≡◌, ◌≤◌, ◌<◌, length};
ghost use Rattle.scanner.specs.Tokens.{WordRead, longer, room_of, NumberRead, NamedRead};
ghost use Rattle.scanner.specs.declared.token.Digits.TheVariants.{Four};
ghost use Rattle.scanner.specs.Look as specs;

use crate::reader::{look, past_word};
use words::byte::ZERO;

// The place where no legal text goes on.
#[derive(Clone, Copy)]
pub struct Stuck(pub usize);

// A number, and the place after it.
#[derive(Clone, Copy)]
pub struct Token {
    pub at: usize,
    pub value: u32,
}

// These bytes from `at` on: the place after them.
pub fn word_at(s: &[u8], at: usize, word: &[u8]) -> Result<usize, Stuck>
    requires { (at ≤ length s.now) × (0 < length word.now) }
    ensures { WordRead s.now word.now at result }
{
    let end = past_word(s, at, word);
    if end - at < word.len() {
        return Err(Stuck(end));
    }
    Ok(end)
}

// How many digits a number may have.
#[derive(Clone, Copy)]
pub enum Digits {
    Two,
    Four,
}

// The digit that stands there, if one does.
fn digit_at(s: &[u8], at: usize) -> Option<u32>
    ensures { result ≡ specs.digit s.now at }
{
    let b = look(s, at)?;
    b.is_ascii_digit().then(|| u32::from(b - ZERO))
}

// A number with the digit that comes next, if one does.
fn longer(s: &[u8], n: Token) -> Token
    requires { n.value < room_of Four }
    ensures { result ≡ longer s.now n }
{
    match digit_at(s, n.at) {
        Some(next) => Token {
            at: n.at + 1,
            value: n.value * 10 + next,
        },
        None => n,
    }
}

// A number from `at` on, with no leading zero; whether it may be 0, and how many digits it may have. (`parse` takes any digits. A flag,
// as in the scope's slots: two functions would be twins, here and below. And no loop, which would branch where the digits end, and be
// guessed wrong there.)
pub fn number_at(s: &[u8], at: usize, zero: bool, most: Digits) -> Result<Token, Stuck>
    requires { at ≤ length s.now }
    ensures { NumberRead s.now zero most at result }
{
    let Some(first) = digit_at(s, at) else {
        return Err(Stuck(at));
    };
    let one = Token {
        at: at + 1,
        value: first,
    };
    if first == 0 {
        return if zero { Ok(one) } else { Err(Stuck(at)) };
    }
    let two = longer(s, one);
    Ok(match most {
        Digits::Two => two,
        Digits::Four => longer(s, longer(s, two)),
    })
}

// A word and the number after it; whether that may be 0, and how many digits it may have.
pub fn named_at(s: &[u8], at: usize, word: &[u8], zero: bool, most: Digits) -> Result<Token, Stuck>
    requires { (at ≤ length s.now) × (0 < length word.now) }
    ensures { NamedRead s.now word.now zero most at result }
{
    number_at(s, word_at(s, at, word)?, zero, most)
}
