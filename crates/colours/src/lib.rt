// Colours of the cache: how many there are, and which pages a colour set takes. Document 01,
// "Colours of the cache", with refusals 2 and 9 to 11. No function here requires anything of its
// caller.
#![tactic(auto)]

mod cache;
mod pages;
mod sets;

pub use cache::{cache_colours, is_colour_count};
pub use pages::{bleach, drop_colour_bits, layout};
pub use sets::{has_colour, is_colour_set};
