// Bytes that several layers name. These stand in both forms of a sheet, in lines of five columns and in typed texts.

pub const SPACE: u8 = b' ';

pub const ZERO: u8 = b'0';

pub const FEED: u8 = b'\n';

// The letters of gates, which are their kinds as words too.
pub const NOT: u8 = b'N';

pub const AND: u8 = b'A';

pub const OR: u8 = b'O';
