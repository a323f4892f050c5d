// The rules of a sheet, each its point.
ghost use Rattle.std.specs.Prelude.{◌≡◌, ◌<◌};
ghost use Rattle.scope.specs.Sheet.{most_rules};
ghost use Rattle.scope.specs.Words.{rule_at};
ghost use Rattle.words.specs.Entries.{RulePut};

use crate::Words;
use crate::counts::RULES;
use crate::gate::{FIRST_GATE, GATE_SIZE};
use crate::limit::{MOST_GATES, MOST_RULES};
use crate::table::{Table, entry, push};

// the words of a rule: its point
const RULE_SIZE: usize = 1;

// where the rules begin
pub const FIRST_RULE: usize = FIRST_GATE + MOST_GATES as usize * GATE_SIZE;

const TABLE: Table<RULE_SIZE> = Table {
    count: RULES,
    first: FIRST_RULE,
    most: MOST_RULES,
};

// Rule i, counted from 0.
pub fn rule_at(words: &Words, i: usize) -> u32
    requires { i < most_rules }
    ensures { result ≡ rule_at words.now i }
{
    let [point] = entry(TABLE, words, i);
    point
}

// One more rule, if there is room.
#[tactic(auto, using(crate::specs::Laws::Puts::rule_put))]
pub fn put_rule(words: &mut Words, point: u32)
    ensures { RulePut point words.old words.new }
{
    push(TABLE, words, [point]);
}
