// Rule lines.
ghost use Rattle.std.specs.Prelude.{◌≡◌, ◌+◌, ◌≤◌};
ghost use Rattle.scope.specs.Typed.{most_text};
ghost use Rattle.scanner.specs.Look as place;
ghost use Rattle.text.specs.Lines.{rule_letter, NoMore, Later, RulesTold, RulesRead, WithRule};

use crate::lines::{Lines, tests};
use formula::level::or_level;
use formula::parsed::Parsed;
use formula::points::Points;
use formula::sign::fed;
use scanner::reader::next_is;
use scanner::token::{Stuck, word_at};
use words::Words;
use words::limit::{MOST_GATES, MOST_RULES};
use words::rule::put_rule;

const RULE: u8 = b'r';

// brackets and nots together
const MOST_NESTED: u32 = 32;

// The lines with one more rule, p.
fn with_rule(l: Lines, p: Parsed) -> Lines
    requires { l.rules + l.wishes ≤ most_text }
    ensures { WithRule l p result }
{
    let room = p.gates <= MOST_GATES && l.rules < MOST_RULES;
    Lines {
        at: p.at,
        gates: p.gates,
        rules: l.rules + 1,
        fault: l.fault_with(tests(room, p.known)),
        ..l
    }
}

// One more line, which begins as a rule does. (No twin of `wish_line`, as what is read after the word and what is put differ. What text,
// lines and words say together is asked for by both, and by the two loops: no value holds all three, as the words are lent. Nor do the
// points go into one struct with them, as in `formula::level`.)
fn rule_line(s: &[u8], l: Lines, c: Points, words: &mut Words) -> Result<Lines, Stuck>
    requires { RulesTold s.now c l words.old × (place.look s.now l.at ≡ rule_letter) }
    ensures { RulesRead s.now c result words.new × Later l.at result }
{
    let at = word_at(s, l.at, b"rule ")?;
    let formula = or_level(s, at, MOST_NESTED, c, l.gates, words)?;
    let p = fed(s, formula)?;
    put_rule(words, p.point);
    Ok(with_rule(l, p))
}

// All rule lines. (One loop for rules and wishes would need a closure, or a trait whose ghost members say what a line of each promises:
// longer than the two loops.)
pub fn rule_lines(s: &[u8], head: Lines, c: Points, words: &mut Words) -> Result<Lines, Stuck>
    requires { RulesTold s.now c head words.old }
    ensures { RulesRead s.now c result words.new × NoMore s.now rule_letter result }
{
    let mut l = head;
    while next_is(s, l.at, RULE) {
        l = rule_line(s, l, c, words)?;
    }
    Ok(l)
}
