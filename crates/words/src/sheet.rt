// A valid sheet, and its entries.
ghost use Rattle.std.specs.Prelude.{◌≡◌, ◌<◌, length, get_or};
ghost use Rattle.scope.specs.Sheet.{Valid};
ghost use Rattle.scope.specs.Words.{no_gate, no_wish, held};
ghost use Rattle.words.specs.Entries.{counts_from, gate_from, wish_from};

use crate::Words;
use crate::counts::{Counts, counts_of};
use crate::gate::{Gate, gate_words};
use crate::literal::Literal;
use crate::rule::rule_at;
use crate::wish::{Wish, wish_at};
use std::marker::Model;

// Gate i of words that hold a valid sheet, counted from 0. (Not of a `Sheet`, for the writer, who has lent words.)
// Inlined, as the truth of a point asks for a gate each time: with a call, Answer on trees takes a quarter longer.
#[inline(always)]
pub fn valid_gate(words: &Words, i: usize) -> Gate
    requires valid { Valid (held words.now) }
    requires listed { i < length (held words.now).gates }
    ensures { gate_from result ≡ get_or (held words.now).gates i no_gate }
{
    let Ok(gate) = Gate::try_from(gate_words(words, i)) else {
        unreachable!()
    };
    gate
}

// Lent words of a valid sheet. What stands beyond its counts is ignored.
#[derive(Drop)]
pub struct Sheet<'a> {
    words: &'a Words,
}

impl<'a> Model for Sheet<'a> {
    ghost use Rattle.scope.specs.Sheet.{Sheet, Valid};
    ghost use Rattle.scope.specs.Words.{held};

    ghost Value = { Sheet };

    ghost view = { λ s. held s.words.now };

    ghost invariant = { λ s. Valid (held s.words.now) };
}

impl<'a> Sheet<'a> {
    pub fn new(words: &'a Words) -> Sheet<'a>
        requires { Valid (held words.now) }
        ensures { result ≡ held words.now }
    {
        Sheet { words }
    }

    pub fn words(&self) -> &'a Words
        ensures { held result.now ≡ self.now }
    {
        self.words
    }

    #[tactic(auto, using(crate::specs::Laws::Held::held_gates, crate::specs::Laws::Held::held_rules, crate::specs::Laws::Held::held_wishes))]
    pub fn counts(&self) -> Counts
        ensures valid { Valid self.now }
        ensures counts { result ≡ counts_from self.now }
    {
        counts_of(self.words)
    }

    // Gate i, counted from 0, as rules and wishes are.
    pub fn gate(&self, i: usize) -> Gate
        requires { i < length self.now.gates }
        ensures { gate_from result ≡ get_or self.now.gates i no_gate }
    {
        valid_gate(self.words, i)
    }

    #[tactic(auto, using(crate::specs::Laws::Held::held_rules, crate::specs::Laws::Held::held_rule))]
    pub fn rule(&self, i: usize) -> u32
        requires { i < length self.now.rules }
        ensures { result ≡ get_or self.now.rules i 0 }
    {
        rule_at(self.words, i)
    }

    pub fn wish(&self, i: usize) -> Wish
        requires { i < length self.now.wishes }
        ensures { wish_from result ≡ get_or self.now.wishes i no_wish }
    {
        let [first, second, third, weight] = wish_at(self.words, i);
        Wish {
            clause: [first, second, third].map(Literal::in_code),
            weight,
        }
    }
}
