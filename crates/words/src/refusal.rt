// The refusals, for all forms and all jobs.
ghost use Rattle.std.specs.Prelude.{◌≡◌, cond, Ok, Err};

// Each stands for the papers' number (`number_of` in specs/Refusals).
#[derive(Clone, Copy, PartialEq, Eq)]
pub enum Refusal {
    // wrong length of a sheet
    Length = 1,
    // line malformed or letter unknown
    Malformed,
    // letter not allowed at this line
    Order,
    // switches or faults outside their range
    Range,
    // one gate, rule or wish too many
    Limit,
    // point or literal not allowed, unused field not 0, literal after a 0
    Fields,
    // wrong number of lines
    Count,
    // no plan keeps all rules
    NoPlan,
    // the list is longer than its room
    NoRoom,
    // the rated plan is too high
    HighPlan,
    // a given pattern is too high
    HighPattern,
    // a text too long or not legal
    Illegal,
    // the buffer is too short
    TooShort,
    // weight of a wish outside 1 to 999
    Weight,
}

impl From<Refusal> for u32 {
    ghost use Rattle.std.specs.Prelude.{◌≡◌};
    ghost use Rattle.words.specs.Refusals.{number_of};

    ghost from_gives = { λ r n. n ≡ number_of r };

    fn from(r: Refusal) -> u32 {
        r as u32
    }
}

// Why a sheet, a text, tables or a job are turned down, and where. What the papers name no place or no column for has 0 there, as C
// and the printed lines have it: an `Option` of either would be made 0 again wherever it is told.
#[derive(Clone, Copy)]
pub struct Cause {
    pub refusal: Refusal,
    pub place: usize,
    pub column: usize,
}

// A cause that has no column. Its place is a line, or the position of a byte or a pattern; that of a length, a list or a plan is 0.
impl Cause {
    pub fn at(refusal: Refusal, place: usize) -> Cause
        ensures { result ≡ record { refusal = refusal; place = place; column = 0 } }
    {
        Cause {
            refusal,
            place,
            column: 0,
        }
    }
}

// A test, and the refusal that it spares.
pub fn require(met: bool, refusal: Refusal) -> Result<(), Refusal>
    ensures { result ≡ cond met (Ok tt) (Err refusal) }
{
    if met { Ok(()) } else { Err(refusal) }
}
