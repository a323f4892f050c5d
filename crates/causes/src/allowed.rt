// What may stand in the fields of a line: the tests of the scope, over numbers. `writer` asks them too, of the numbers that its words say.
ghost use Rattle.std.specs.Prelude.{◌≡◌, ◌&&◌, ◌≤◌, length, drop};
ghost use Rattle.std.specs.List.{list_all};
ghost use Rattle.scope.specs.Sheet.{most_switches, most_faults};
ghost use Rattle.scope.specs.Causes.{is, up_to, point, literal, zeros, literals, is_weight};
ghost use Rattle.field.specs.Columns.{number_from};
ghost use Rattle.line.specs.Lines.{numbers_from};
ghost use Rattle.causes.specs.Tests.{point_test, are_points};

use field::Number;
use words::limit::{MOST_FAULTS, MOST_SWITCHES};
use words::wish;

// By hand, as a `Number` has no order.
fn is_up_to(x: Number, m: u32) -> bool
    ensures { result ≡ up_to m (number_from x) }
{
    !x.minus && x.size <= m
}

// Whether the switches and the faults of a head are in their range.
pub fn is_head(switches: Number, faults: Number) -> bool
    ensures { result ≡ (up_to most_switches (number_from switches) && up_to most_faults (number_from faults)) }
{
    is_up_to(switches, MOST_SWITCHES) && is_up_to(faults, MOST_FAULTS)
}

// Whether x is one of m points, which may be more than a `Number` counts.
pub fn is_point(x: Number, m: usize) -> bool
    ensures { result ≡ point m (number_from x) }
{
    !x.minus && x.size as usize <= m && 0 < x.size
}

// Whether x is a weight that a wish may have.
pub(crate) fn is_weight(x: Number) -> bool
    ensures { result ≡ is_weight (number_from x) }
{
    !x.minus && wish::is_weight(x.size)
}

fn is_literal(x: Number, a: u32) -> bool
    ensures { result ≡ literal a (number_from x) }
{
    x.size <= a && 0 < x.size
}

fn is_zero(x: Number) -> bool
    ensures { result ≡ is 0 (number_from x) }
{
    x == Number::from(0)
}

// Whether these fields hold 0.
pub(crate) fn are_unused(xs: &[Number]) -> bool
    ensures { result ≡ zeros (numbers_from xs.now) }
{
    xs.iter().all(|x| is_zero(*x))
}

// Whether literals of a switches come first and zeros fill up.
pub fn are_literals(xs: &[Number], a: u32) -> bool
    ensures { result ≡ literals a (numbers_from xs.now) }
{
    for (i, x) in xs.iter().enumerate() {
        if is_zero(*x) {
            return are_unused(&xs[i + 1..]);
        }
        if !is_literal(*x, a) {
            return false;
        }
    }
    true
}

fn are_all_points(xs: &[Number], m: usize) -> bool
    ensures { result ≡ list_all (point_test m) xs.now }
{
    xs.iter().all(|x| is_point(*x, m))
}

// K points of m, and nothing else.
#[tactic(auto, using(crate::proofs::Fields::all_points, crate::proofs::Fields::others_unused))]
pub(crate) fn are_points<const K: usize>(xs: &[Number], m: usize) -> bool
    requires { K ≤ length xs.now }
    ensures { result ≡ (are_points m K (numbers_from xs.now) && zeros (drop K (numbers_from xs.now))) }
{
    let (first, rest) = xs.split_at(K);
    are_all_points(first, m) && are_unused(rest)
}
