// What the lines so far say.
ghost use Rattle.std.specs.Prelude.{◌+◌, ◌≤◌};
ghost use Rattle.scope.specs.Typed.{most_text};
ghost use Rattle.words.specs.Refusals.{Tested};
ghost use Rattle.text.specs.Lines.{FirstOf, room_tests};

use words::refusal::{Refusal, require};

// the two lines before the first rule
const HEAD_LINES: usize = 2;

// The first fault, and its line. (A `Cause` has a column too, of which each promise would have to say that it is 0.)
#[derive(Clone, Copy)]
pub struct Fault {
    pub refusal: Refusal,
    pub line: usize,
}

// The place after them, how many gates, rules and wishes they have, and the first fault.
#[derive(Clone, Copy)]
pub struct Lines {
    pub at: usize,
    pub gates: u32,
    pub rules: u32,
    pub wishes: u32,
    pub fault: Option<Fault>,
}

// With one more line, whose own tests came out so.
pub fn first_of(f: Option<Fault>, tested: Result<(), Refusal>, line: usize) -> Option<Fault>
    ensures { FirstOf f tested line result }
{
    f.or(tested.err().map(|refusal| Fault { refusal, line }))
}

// The tests of a rule, and the first ones of a wish: whether there is room for it, and whether its numbers are on the sheet.
pub fn tests(room: bool, known: bool) -> Result<(), Refusal>
    ensures { Tested (room_tests room known) result }
{
    require(room, Refusal::Limit)?;
    require(known, Refusal::Fields)
}

impl Lines {
    // The first fault, also of one more rule or wish, whose own tests came out so. (That the figures are small is no invariant of the
    // lines, as it would have to be shown of one more before the text says so.)
    pub fn fault_with(self, tested: Result<(), Refusal>) -> Option<Fault>
        requires { self.rules + self.wishes ≤ most_text }
        ensures { FirstOf self.fault tested (self.rules + self.wishes + 3) result }
    {
        let line = self.rules as usize + self.wishes as usize + HEAD_LINES + 1;
        first_of(self.fault, tested, line)
    }
}
