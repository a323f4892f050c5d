// What several layers share. A planning sheet is one array of words, `Words`: five counts, then room for 400 gates of three words, 64
// rules of one and 64 wishes of four (`held` and `words_of` in the crate `scope`, module Words). `Sheet` is such an array that holds a
// valid sheet; a contract sees it as the scope's sheet. Here are the entries of both, read and put one by one; limits, refusals,
// literals; plans and patterns. The crate rests on `scope` alone. The array is a struct of the calls for C too, `comzsered_tables`: so
// counts stand beside rooms, and a gate names others by their numbers.
#![tactic(auto)]

pub mod byte;
pub mod counts;
pub mod gate;
pub mod limit;
pub mod literal;
pub mod refusal;
pub mod rule;
pub mod sheet;
pub mod table;
pub mod wish;

use limit::MOST_WISHES;
use wish::{FIRST_WISH, WISH_SIZE};

pub const WORDS: usize = FIRST_WISH + MOST_WISHES as usize * WISH_SIZE;

pub type Words = [u32; WORDS];

// A plan: the switches as binary digits, switch 1 highest, on as 1. The source's μ.
#[derive(Clone, Copy, PartialEq, Eq, PartialOrd, Ord)]
pub struct Plan(pub u32);

// A fault pattern: the faults as binary digits, fault 1 highest. The source's ν.
#[derive(Clone, Copy)]
pub struct Pattern(pub u32);
