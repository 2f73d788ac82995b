// Look, fault, release, colours and the quota of a domain: document 01, "Board and frame table", and 02, Nos. 2, 6
// and 7. What they mean is said in `calls`; this crate runs them on a lent table and a board by value, which
// set_quota alone is lent. No public function here requires anything of its caller. The calls that move frames are
// in `moves` and `taking_back`.
#![tactic(auto)]

mod active;
mod mapping;
mod quotas;

pub use active::{ActiveColours, colours};
pub use mapping::{Faulted, fault, look, release};
pub use quotas::{Asked, ask_quota, set_quota};
