// A table of the words: as many entries of N words as its count says, one after another.
ghost use Rattle.std.specs.Prelude.{◌≡◌, ◌+◌, ◌*◌, ◌≤◌, ◌<◌};
ghost use Rattle.scope.specs.Words.{gates_from, word_count};
ghost use Rattle.words.specs.Tables.{entry_at, pushed};

use crate::Words;

#[derive(Clone, Copy)]
pub struct Table<const N: usize> {
    // where its count stands, and its first entry
    pub count: usize,
    pub first: usize,
    // how many entries it has room for
    pub most: u32,
    ghost counted: { count < gates_from },
    ghost behind: { gates_from ≤ first },
    ghost inside: { first + most * N ≤ word_count },
}

// Entry i, counted from 0. Each table has a limit of its own, so a type of index would be one for each, made by the same test.
pub fn entry<const N: usize>(table: Table<N>, words: &Words, i: usize) -> [u32; N]
    requires { i < table.most }
    ensures { result ≡ entry_at table.entry.first N words.now i }
{
    let at = table.first + i * N;
    let mut entry = [0; N];
    entry.copy_from_slice(&words[at..at + N]);
    entry
}

// One more entry, if there is room.
pub fn push<const N: usize>(table: Table<N>, words: &mut Words, entry: [u32; N])
    ensures { words.new ≡ pushed table.entry.count table.entry.first table.entry.most N entry.entry words.old }
{
    let n = words[table.count];
    if table.most <= n {
        return;
    }
    let at = table.first + n as usize * N;
    words[at..at + N].copy_from_slice(&entry);
    words[table.count] = n + 1;
}
