// The words of the frame table, and what a frame is to a call: document 01, "Board and frame table". The word of a
// page, the one test of whether a word belongs to a domain, whether a frame's colour is in a set, and the searches
// over a table. No function here requires anything of its caller.
#![tactic(auto)]

mod search;
mod sets;
mod words;

pub use search::{lowest_word, next_stray};
pub use sets::{in_set, limits_of};
pub use words::{is_among, page_of, word_for};
