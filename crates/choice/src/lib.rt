// Which free frame a domain takes: document 02, No. 7. By colour, how many frames it holds and the lowest free
// frame; of the colours of a set with a free frame the one with the fewest held, the lowest on a tie. A fault chooses
// once, by its lanes; a recolouring keeps the keys by which colours are chosen. No public function requires anything
// of its caller: a number of colours that is none is taken for another, and what comes of it is determined.
#![tactic(auto)]

mod choosing;
mod lane_sums;

pub use choosing::{choose, keys_of, least_key, next_key};
pub use lane_sums::{sum_all, sum_side};
