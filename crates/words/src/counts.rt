// The counts of a sheet, its first words.
ghost use Rattle.std.specs.Prelude.{◌≡◌, ◌+◌};
ghost use Rattle.words.specs.Entries.{counts_at, HeadPut};

use crate::Words;

// where each count stands
const SWITCHES: usize = 0;

const FAULTS: usize = 1;

pub const GATES: usize = 2;

pub const RULES: usize = 3;

pub const WISHES: usize = 4;

// how many words they take
pub const COUNTS: usize = 5;

#[derive(Clone, Copy)]
pub struct Counts {
    pub switches: u32,
    pub faults: u32,
    pub gates: u32,
    pub rules: u32,
    pub wishes: u32,
}

impl Counts {
    // The points: switches, faults and gates. Each may be any word, and then the sum is too large for one.
    pub fn points(self) -> usize
        ensures { result ≡ self.switches + self.faults + self.gates }
    {
        self.switches as usize + self.faults as usize + self.gates as usize
    }
}

pub fn counts_of(words: &Words) -> Counts
    ensures { result ≡ counts_at words.now }
{
    let [switches, faults, gates, rules, wishes, ..] = *words;
    Counts {
        switches,
        faults,
        gates,
        rules,
        wishes,
    }
}

// The words with so many switches and faults: a head has these two alone of the counts.
#[tactic(auto, using(crate::specs::Laws::Puts::head_put))]
pub fn put_head(words: &mut Words, switches: u32, faults: u32)
    ensures { HeadPut switches faults words.old words.new }
{
    words[SWITCHES] = switches;
    words[FAULTS] = faults;
}
