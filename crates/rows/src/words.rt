// Words of the rows: document 01, VCPU rows of four words and task rows of twenty. The count of ones
// in a task's set picks its cost.
ghost use Rattle.std.specs.Prelude.{◌≡◌, get_or};
ghost use Rattle.rows.specs.RowWords.{vcpu_word, task_word, cost as cost_of};

use crate::{TASK_SET, TASK_WORDS, VCPU_WORDS};

// Kept: 0 and no Option past the end, as `vcpu_word` and `task_word` of the definitions have it.
fn word_at(words: &[u32], at: usize) -> u32
    ensures { result ≡ get_or words.now at 0 }
{
    words.get(at).copied().unwrap_or(0)
}

// Kept: a list and a row's number as two arguments: loops go along the numbers, and a view would be made at each call.

// Word k of a VCPU's row.
pub fn vcpu_word(vcpus: &[u32], row: u32, k: u32) -> u32
    ensures { result ≡ vcpu_word vcpus.now row k }
{
    word_at(vcpus, VCPU_WORDS * (row as usize) + k as usize)
}

// Word k of a task's row.
pub fn task_word(tasks: &[u32], row: u32, k: u32) -> u32
    ensures { result ≡ task_word tasks.now row k }
{
    word_at(tasks, TASK_WORDS * (row as usize) + k as usize)
}

// The cost of a task with the colours that it holds. A set without a colour gives 0, which is the word
// of the set itself; k colours above 16 give word k - 17 of the next row, or 0 beyond the list.
#[tactic(auto, unfolding(crate::specs::RowWords::cost))]
pub fn cost(tasks: &[u32], row: u32) -> u32
    ensures { result ≡ cost_of tasks.now row }
{
    let k = task_word(tasks, row, TASK_SET).count_ones();
    task_word(tasks, row, TASK_SET + k)
}
