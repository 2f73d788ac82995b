// The board by value and its fields: document 01, "Board and frame table", and 02, No. 6. The definitions of its
// refusals are here too; the code that tests for them is in `board_tests`.
#![tactic(auto)]

mod fields;
mod quotas;

pub use fields::empty_or_outside;
pub use quotas::{first_quotas, no_quota};

// N, F, the domain count, and a grant, an active set and a quota for each domain. Fields of domains at or
// beyond the count are neither read nor changed.
// Kept: three lists side by side, with their count: a caller in C lends a board as its 27 words, without gaps.
#[repr(C)]
#[derive(Clone, Copy, Debug, PartialEq, Eq)]
pub struct Board {
    pub colours: u32,
    pub frames: u32,
    pub domains: u32,
    pub grants: [u32; 8],
    pub active: [u32; 8],
    pub quotas: [u32; 8],
}
