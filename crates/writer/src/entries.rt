// The lines of a held sheet, and what stands on each.
ghost use Rattle.std.specs.Prelude.{◌≡◌, ◌≤◌};
ghost use Rattle.writer.specs.Entries.{before_end, LineOf};

use words::Words;
use words::counts::counts_of;

// What a line is of: the counts of switches and faults, an entry, counted from 0, or the end. A line's tests are one match of these, and
// its bytes another: a table of closures would have the same five arms.
#[derive(Clone, Copy)]
pub enum Entry {
    Head,
    Gate(usize),
    Rule(usize),
    Wish(usize),
    End,
}

// The lines before the last, which counts them.
pub fn line_count(words: &Words) -> usize
    ensures { result ≡ before_end words.now }
{
    let c = counts_of(words);
    1 + c.gates as usize + c.rules as usize + c.wishes as usize
}

// What line k is of, counted from 0. Callers count k by `for`, so that a type for its range would say no more than the range.
pub fn entry_on(words: &Words, k: usize) -> Entry
    requires { k ≤ before_end words.now }
    ensures { LineOf words.now k result }
{
    let c = counts_of(words);
    let Some(i) = k.checked_sub(1) else {
        return Entry::Head;
    };
    let Some(j) = i.checked_sub(c.gates as usize) else {
        return Entry::Gate(i);
    };
    let Some(m) = j.checked_sub(c.rules as usize) else {
        return Entry::Rule(j);
    };
    if m < c.wishes as usize {
        Entry::Wish(m)
    } else {
        Entry::End
    }
}
