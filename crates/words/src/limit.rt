// What a sheet may have at most.

pub const MOST_SWITCHES: u32 = 20;

pub const MOST_FAULTS: u32 = 16;

pub const MOST_GATES: u32 = 400;

pub const MOST_RULES: u32 = 64;

pub const MOST_WISHES: u32 = 64;

// of a wish
pub const MOST_LITERALS: usize = 3;

// of a wish; the least is 1
pub const MOST_WEIGHT: u32 = 999;

// The lines of the longest sheet: its head, its entries and its end.
pub const MOST_LINES: usize = (MOST_GATES + MOST_RULES + MOST_WISHES) as usize + 2;
