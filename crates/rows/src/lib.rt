// The rows of a plan as words, what an arrival of an earlier task charges, and the part of a VCPU:
// document 01, "Plans", with document 02, No. 3. No function here requires anything of its caller: a
// word past the end of a list reads as 0.
#![tactic(auto)]

mod arrival;
mod own_rows;
mod words;

pub use arrival::charges;
pub use own_rows::{next_own, part, part_from, part_start};
pub use words::{cost, task_word, vcpu_word};

// The words of a row, and the number of each in its row, by their names in the header. The costs stand
// after the set: that with k colours is k words after it.
pub const VCPU_WORDS: usize = 4;

pub const VCPU_CORE: u32 = 0;

pub const VCPU_DOMAIN: u32 = 1;

pub const VCPU_PERIOD: u32 = 2;

pub const VCPU_BUDGET: u32 = 3;

pub const TASK_WORDS: usize = 20;

pub const TASK_VCPU: u32 = 0;

pub const TASK_PERIOD: u32 = 1;

pub const TASK_DEADLINE: u32 = 2;

pub const TASK_SET: u32 = 3;
