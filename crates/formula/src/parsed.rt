// What was read of a formula, and one operator more.
ghost use Rattle.std.specs.Prelude.{◌≤◌, ◌&&◌};
ghost use Rattle.scope.specs.Typed.{most_text};
ghost use Rattle.words.specs.Entries.{gate_from};
ghost use Rattle.formula.specs.Formulas.{Gated};

use crate::points::Points;
use words::Words;
use words::gate::{Gate, put_gate};

// What was read of a formula.
#[derive(Clone, Copy)]
pub struct Parsed {
    // the place after it
    pub at: usize,
    pub point: u32,
    // whether each of its numbers is on the sheet
    pub known: bool,
    // how many gates there are with its own; apart from `point`, as the two side by side are loaded as one word, which is slower
    pub gates: u32,
}

impl Parsed {
    // With one more gate, at the point after all others. (No `Counts`: `Points` are small, so that the sum is a `u32`, and the gates of
    // a text go on where those of the words stop. That the gates are few is no invariant: it would have to be shown of one gate more
    // before the text says so.)
    pub fn with_gate(self, gate: Gate, known: bool, c: Points, sheet: &mut Words) -> Parsed
        requires { self.gates ≤ most_text }
        ensures { Gated c (gate_from gate) known self result sheet.old sheet.new }
    {
        put_gate(sheet, gate);
        let gates = self.gates + 1;
        Parsed {
            at: self.at,
            point: c.switches + c.faults + gates,
            known,
            gates,
        }
    }

    // Two operands joined: the operator's gate comes after those of both.
    pub fn joined(self, q: Parsed, gate: Gate, c: Points, sheet: &mut Words) -> Parsed
        requires { q.gates ≤ most_text }
        ensures { Gated c (gate_from gate) (self.known && q.known) q result sheet.old sheet.new }
    {
        q.with_gate(gate, self.known && q.known, c, sheet)
    }
}
