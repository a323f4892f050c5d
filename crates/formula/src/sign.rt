// What comes after a formula: a sign, a bracket or a line feed.
ghost use Rattle.std.specs.Prelude.{◌≡◌, ◌<◌, eqb};
ghost use Rattle.scanner.specs.Look as place;
ghost use Rattle.formula.specs.Formulas.{sign_at, operand_at, ended_of, closed_of, fed_of};

use crate::parsed::Parsed;
use scanner::reader::{next_is, skip};
use scanner::token::Stuck;
use words::byte::FEED;

const CLOSE: u8 = b')';

// Whether this sign comes next.
pub(crate) fn goes_on(s: &[u8], at: usize, sign: u8) -> bool
    ensures { result ≡ eqb (sign_at s.now at) sign }
{
    next_is(s, skip(s, at), sign)
}

// The place of the operand after the sign that comes next.
pub fn operand_at(s: &[u8], at: usize) -> usize
    requires { place.look s.now (place.skip s.now at) < place.end }
    ensures { result ≡ operand_at s.now at }
{
    skip(s, skip(s, at) + 1)
}

// The byte after a formula, which is asked for at a place.
fn ended(s: &[u8], p: Parsed, at: usize, b: u8) -> Result<Parsed, Stuck>
    ensures { result ≡ ended_of s.now p at b }
{
    if next_is(s, at, b) {
        Ok(Parsed { at: at + 1, ..p })
    } else {
        Err(Stuck(skip(s, p.at)))
    }
}

// The bracket after a formula.
pub fn closed(s: &[u8], p: Parsed) -> Result<Parsed, Stuck>
    ensures { result ≡ closed_of s.now p }
{
    ended(s, p, skip(s, p.at), CLOSE)
}

// The line feed after a formula, before which no space may stand.
pub fn fed(s: &[u8], p: Parsed) -> Result<Parsed, Stuck>
    ensures { result ≡ fed_of s.now p }
{
    ended(s, p, p.at, FEED)
}
