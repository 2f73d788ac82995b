// The limits of the frame table: document 01, "Board and frame table". Each number is named once, here for code and
// in specs/ for definitions. There is no function.
#![tactic(auto)]

// The most frames that a table has.
pub const MOST_FRAMES: usize = 4096;

// The largest quota of a domain.
pub const MOST_QUOTA: u32 = 4096;

// The pages of a domain, 0 to the last one; each has a word, one after the other.
pub const PAGES: usize = 4096;

pub const LAST_PAGE: u32 = 4095;

// The highest first word from which on a domain has room for the words of all its pages.
pub const LAST_FIRST: u16 = 61440;
