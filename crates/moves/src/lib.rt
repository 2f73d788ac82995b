// Recolouring, the call that moves a domain's frames: document 01, "Board and frame table", and 02, Nos. 4 and 7. What
// it means is said in `calls`. It goes in three steps: `recolouring` judges the call, `ordering` finds the place of
// each triple, and `moving` moves the words. What taking back shares with it is offered here too. No public function
// requires anything of its caller.
#![tactic(auto)]

mod moving;
mod new_set;
mod ordering;
mod recolouring;

pub use new_set::NewSet;
pub use recolouring::{Recoloured, check_set, recolour, with_active};
