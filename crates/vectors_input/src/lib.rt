// What the programs that answer vectors share: words.rt reads their input, hash.rt has the hash by which
// they compare lists, and lines.rt writes their lines. The loop over the cases stands in each `main`.
#![tactic(auto)]

mod hash;
mod lines;
mod words;

pub use hash::{hash_table, hash_words};
pub use lines::{line, number, part, refused, text, told};
pub use words::{
    marked_list, marked_table, next_board, next_bytes, next_list, next_table, next_whole_board,
    next_word, next_words,
};
