// The first two lines: how many switches and faults there are.
ghost use Rattle.text.specs.Lines.{HeadRead, HeadLines};

use crate::lines::{Lines, first_of};
use formula::points::Points;
use scanner::token::{Digits, Stuck, named_at, word_at};
use words::limit::{MOST_FAULTS, MOST_SWITCHES};
use words::refusal::{Refusal, require};

// The place after them, and what they say. (A `Token` but for the name of what was read, which says more than `value`; of a literal and
// the place after it `wish` makes a pair.)
#[derive(Clone, Copy)]
pub struct Head {
    pub at: usize,
    pub points: Points,
}

pub fn head_at(s: &[u8]) -> Result<Head, Stuck>
    ensures { HeadRead s.now result }
{
    let switches = named_at(s, 0, b"switches ", true, Digits::Two)?;
    let faults = named_at(s, switches.at, b"\nfaults ", true, Digits::Two)?;
    let at = word_at(s, faults.at, b"\n")?;
    let points = Points {
        switches: switches.value,
        faults: faults.value,
    };
    Ok(Head { at, points })
}

// As lines, with their faults.
impl From<Head> for Lines {
    ghost use Rattle.text.specs.Lines.{HeadLines};

    ghost from_gives = { λ h lines. HeadLines h lines };

    fn from(h: Head) -> Lines {
        let first = first_of(
            None,
            require(h.points.switches <= MOST_SWITCHES, Refusal::Range),
            1,
        );
        let fault = first_of(
            first,
            require(h.points.faults <= MOST_FAULTS, Refusal::Range),
            2,
        );
        Lines {
            at: h.at,
            gates: 0,
            rules: 0,
            wishes: 0,
            fault,
        }
    }
}
