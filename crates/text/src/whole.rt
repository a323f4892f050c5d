// A whole text.
ghost use Rattle.std.specs.Prelude.{◌≡◌, ◌≤◌, length};
ghost use Rattle.scope.specs.Causes.{started};
ghost use Rattle.scope.specs.Typed.{most_text};
ghost use Rattle.scope.specs.Texts.{TextRead};
ghost use Rattle.scope.specs.Words.{words_of};
ghost use Rattle.words.specs.Told.{Fills};
ghost use Rattle.text.specs.Texts.{LinesTold};

use crate::head::head_at;
use crate::lines::Lines;
use crate::rule::rule_lines;
use crate::wish::wish_lines;
use scanner::token::Stuck;
use words::counts::put_head;
use words::refusal::{Cause, Refusal};
use words::{WORDS, Words};

// The bytes of the longest text.
pub const MOST_TEXT: usize = 16384;

// All lines of a text that is not too long. Not inlined, so that `read` is: then a caller's own zeros and those of `read` are put once.
#[inline(never)]
fn lines_of(s: &[u8], words: &mut Words) -> Result<Lines, Stuck>
    requires { (length s.now ≤ most_text) × (words.old ≡ words_of (started 0 0)) }
    ensures { LinesTold s.now result words.new }
{
    let h = head_at(s)?;
    put_head(words, h.points.switches, h.points.faults);
    let rules = rule_lines(s, Lines::from(h), h.points, words)?;
    let l = wish_lines(s, rules, h.points, words)?;
    // no byte may be left after the last line
    if l.at < s.len() {
        return Err(Stuck(l.at));
    }
    Ok(l)
}

// The words of the sheet that a text stands for, or the first cause to turn it down: the place where no legal text goes on, counted
// from 1, or the first line at fault. The words are lent, as those of `sheet` are.
#[inline(always)]
pub fn read(s: &[u8], words: &mut Words) -> Result<(), Cause>
    ensures { Fills (TextRead s.now) result words.new }
{
    // At once: behind the test the words would be blanked by the caller as well.
    *words = [0; WORDS];
    if MOST_TEXT < s.len() {
        return Err(Cause::at(Refusal::Illegal, 0));
    }
    match lines_of(s, words) {
        Err(Stuck(at)) => Err(Cause::at(Refusal::Illegal, at + 1)),
        Ok(l) => match l.fault {
            Some(fault) => Err(Cause::at(fault.refusal, fault.line)),
            None => Ok(()),
        },
    }
}
