// The gates of a sheet.
ghost use Rattle.std.specs.Prelude.{◌≡◌, ◌<◌};
ghost use Rattle.scope.specs.Sheet.{most_gates};
ghost use Rattle.words.specs.Entries.{gate_words_at, gate_from, GatePut};

use crate::counts::{COUNTS, GATES};
use crate::limit::MOST_GATES;
use crate::refusal::Refusal;
use crate::table::{Table, entry, push};
use crate::{Words, byte};

// the words of a gate: its kind, and the points that it names, the second 0 for N
pub const GATE_SIZE: usize = 3;

// where the gates begin
pub const FIRST_GATE: usize = COUNTS;

// The kinds as words have them: the letters of their lines. The tables of the calls for C have the same.
pub const NOT: u32 = byte::NOT as u32;

pub const AND: u32 = byte::AND as u32;

pub const OR: u32 = byte::OR as u32;

const TABLE: Table<GATE_SIZE> = Table {
    count: GATES,
    first: FIRST_GATE,
    most: MOST_GATES,
};

// A gate, with the points that it names.
#[derive(Clone, Copy)]
pub enum Gate {
    Not(u32),
    And(u32, u32),
    Or(u32, u32),
}

// Its words.
impl From<Gate> for [u32; GATE_SIZE] {
    ghost use Rattle.std.specs.Prelude.{◌≡◌};
    ghost use Rattle.scope.specs.Words.{gate_words};
    ghost use Rattle.words.specs.Entries.{gate_from};

    ghost from_gives = { λ g w. w ≡ gate_words (gate_from g) };

    fn from(gate: Gate) -> [u32; GATE_SIZE] {
        match gate {
            Gate::Not(p) => [NOT, p, 0],
            Gate::And(p, q) => [AND, p, q],
            Gate::Or(p, q) => [OR, p, q],
        }
    }
}

// The gate that has these words, if there is one.
impl TryFrom<[u32; GATE_SIZE]> for Gate {
    ghost use Rattle.words.specs.Entries.{GateRead};

    type Error = Refusal;

    ghost try_from_gives = { GateRead };

    fn try_from(words: [u32; GATE_SIZE]) -> Result<Gate, Refusal> {
        match words {
            [NOT, p, 0] => Ok(Gate::Not(p)),
            [AND, p, q] => Ok(Gate::And(p, q)),
            [OR, p, q] => Ok(Gate::Or(p, q)),
            _ => Err(Refusal::Fields),
        }
    }
}

// The words of gate i, counted from 0.
pub fn gate_words(words: &Words, i: usize) -> [u32; GATE_SIZE]
    requires { i < most_gates }
    ensures { result ≡ gate_words_at words.now i }
{
    entry(TABLE, words, i)
}

// One more gate, if there is room.
#[tactic(auto, using(crate::specs::Laws::Puts::gate_put))]
pub fn put_gate(words: &mut Words, gate: Gate)
    ensures { GatePut (gate_from gate) words.old words.new }
{
    push(TABLE, words, gate.into());
}
