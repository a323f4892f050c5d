// A formula: factors joined by `&`, these joined by `|`, both from the left. Each operator's gate goes onto the sheet when its operands
// are complete, as long as there is room; all are counted.
ghost use Rattle.std.specs.Prelude.{false, ◌≡◌, ◌≤◌, length};
ghost use Rattle.scope.specs.Typed.{ors, ands, factor, most_number};
ghost use Rattle.scanner.specs.Look as place;
ghost use Rattle.formula.specs.Formulas.{Asked, Numbered, AtomRead, LevelRead, Ends, goes_deeper, and_sign, or_sign};

use crate::parsed::Parsed;
use crate::points::Points;
use crate::sign::{closed, goes_on, operand_at};
use scanner::reader::{BANG, look, skip};
use scanner::token::{Digits, Stuck, number_at};
use words::Words;
use words::gate::Gate;

const SWITCH: u8 = b's';

const FAULT: u8 = b'f';

const OPEN: u8 = b'(';

const AMP: u8 = b'&';

const BAR: u8 = b'|';

// A number as an operand: its point, with so many points before, and whether it is one of `most`.
fn numbered(s: &[u8], at: usize, before: u32, most: u32, gates: u32) -> Result<Parsed, Stuck>
    requires { (at ≤ length s.now) × (before ≤ most_number) }
    ensures { Numbered s.now at before most gates result }
{
    let n = number_at(s, at, false, Digits::Two)?;
    Ok(Parsed {
        at: n.at,
        point: before + n.value,
        known: n.value <= most,
        gates,
    })
}

// A switch or a fault: no gate.
fn atom(s: &[u8], at: usize, c: Points, gates: u32) -> Result<Parsed, Stuck>
    requires { Asked s.now gates at × (goes_deeper (place.look s.now at) ≡ false) }
    ensures { AtomRead s.now c gates at result }
{
    match look(s, at) {
        Some(SWITCH) => numbered(s, at + 1, 0, c.switches, gates),
        Some(FAULT) => numbered(s, at + 1, c.switches, c.faults, gates),
        _ => Err(Stuck(at)),
    }
}

// Whether a byte goes one level deeper.
fn goes_deeper(b: Option<u8>) -> bool
    ensures { result ≡ goes_deeper (place.byte_of b) }
{
    b == Some(BANG) || b == Some(OPEN)
}

// Nots and brackets together are at most `depth` deep; so many gates stand before it, here and below. (Points, gates and words are no
// struct: the number of gates grows from operand to operand, and of a struct that is lent each promise would say too that the points stay.
// So each level asks for what is asked of text, place and gates, `Asked`.) What a level returns it makes anew, field by field: a copy of the
// whole copies the bytes between the fields too, which is slower.
#[cycle(and_level_factor_or_level)]
fn factor(
    s: &[u8],
    at: usize,
    depth: u32,
    c: Points,
    gates: u32,
    sheet: &mut Words,
) -> Result<Parsed, Stuck>
    requires { Asked s.now gates at }
    ensures { LevelRead factor s.now depth c gates at result sheet.old sheet.new }
{
    let b = look(s, at);
    if !goes_deeper(b) {
        let a = atom(s, at, c, gates)?;
        return Ok(Parsed { at: a.at, ..a });
    }
    if depth == 0 {
        return Err(Stuck(at));
    }
    let from = skip(s, at + 1);
    if b == Some(BANG) {
        let p = factor(s, from, depth - 1, c, gates, sheet)?;
        return Ok(p.with_gate(Gate::Not(p.point), p.known, c, sheet));
    }
    closed(s, or_level(s, from, depth - 1, c, gates, sheet)?)
}

// Factors joined by `&`. Inlined, as each bracket goes through all three levels: with a call, a text that is mostly brackets takes a third
// longer.
#[inline(always)]
#[cycle(and_level_factor_or_level)]
fn and_level(
    s: &[u8],
    at: usize,
    depth: u32,
    c: Points,
    gates: u32,
    sheet: &mut Words,
) -> Result<Parsed, Stuck>
    requires { Asked s.now gates at }
    ensures { LevelRead ands s.now depth c gates at result sheet.old sheet.new × Ends s.now and_sign result }
{
    let mut p = factor(s, at, depth, c, gates, sheet)?;
    while goes_on(s, p.at, AMP) {
        let from = operand_at(s, p.at);
        let q = factor(s, from, depth, c, p.gates, sheet)?;
        p = p.joined(q, Gate::And(p.point, q.point), c, sheet);
    }
    Ok(Parsed { at: p.at, ..p })
}

// These joined by `|`: a formula. The two levels are not one generic function, as the paper asks for a function of each.
#[cycle(and_level_factor_or_level)]
pub fn or_level(
    s: &[u8],
    at: usize,
    depth: u32,
    c: Points,
    gates: u32,
    sheet: &mut Words,
) -> Result<Parsed, Stuck>
    requires { Asked s.now gates at }
    ensures { LevelRead ors s.now depth c gates at result sheet.old sheet.new × Ends s.now and_sign result × Ends s.now or_sign result }
{
    let mut p = and_level(s, at, depth, c, gates, sheet)?;
    while goes_on(s, p.at, BAR) {
        let from = operand_at(s, p.at);
        let q = and_level(s, from, depth, c, p.gates, sheet)?;
        p = p.joined(q, Gate::Or(p.point, q.point), c, sheet);
    }
    Ok(Parsed { at: p.at, ..p })
}
