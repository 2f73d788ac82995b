// What a caller in C lends and is told: the board as 27 words, and an answer as four numbers. The crate
// `juzvanec` exports document 01's operations through it. No function here requires anything of its caller.
#![tactic(auto)]

mod replies;
mod words;

pub use replies::ReplyNumbers;
pub use words::{board_of, write_recoloured};
