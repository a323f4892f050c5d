// A line: one letter, its N fields, one line feed.
ghost use Rattle.std.specs.Prelude.{◌≡◌, ◌≤◌};
ghost use Rattle.scope.specs.Causes.{line_size, weight_on};
ghost use Rattle.field.specs.Columns.{number_from};
ghost use Rattle.line.specs.Lines.{layout_of, numbers_from};

use crate::letter::Letter;
use field::{FIELD_SIZE, Number};
use words::limit::MOST_LITERALS;
use words::wish::DEFAULT_WEIGHT;

// The fields of a line in the layout with weights, the last for that of a wish.
pub const WEIGHTED_FIELDS: usize = 4;

// the bytes of such a line: a constant's value calls no function
pub const WEIGHTED_SIZE: usize = 1 + WEIGHTED_FIELDS * FIELD_SIZE + 1;

// A line of N fields.
#[derive(Clone, Copy)]
pub struct Line<const N: usize> {
    pub letter: Letter,
    pub numbers: [Number; N],
}

impl<const N: usize> Line<N> {
    // The weight on the line of a wish: the field after its literals, if there is one.
    pub fn weight(&self) -> Number
        ensures { number_from result ≡ weight_on (layout_of N) (numbers_from self.now.numbers) }
    {
        match self.numbers.get(MOST_LITERALS) {
            Some(x) => *x,
            None => Number::from(DEFAULT_WEIGHT),
        }
    }
}

// The bytes of a line of n fields. (Of how many there may be, promises tell in numbers: a type for 3 or 4 would have no field.)
pub fn line_size(n: usize) -> usize
    requires { n ≤ 4 }
    ensures { result ≡ line_size n }
{
    1 + n * FIELD_SIZE + 1
}
