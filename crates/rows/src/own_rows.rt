// The part of a VCPU: document 01, "the part runs from the VCPU's first row up to the next row of
// another VCPU". It is that piece of the caller's own list; a VCPU without rows has an empty one, and
// words short of a row belong to none.
ghost use Rattle.std.specs.Prelude.{◌≡◌, Bool, ℕ};
ghost use Rattle.lists.specs.Range.{lowest_from};
ghost use Rattle.rows.specs.RowWords.{vcpu_of, task_rows};
ghost use Rattle.rows.specs.Part.{next_own, next_other, part_start, part_from, part_of};

use crate::TASK_WORDS;

// The next row from a row on whose VCPU passes a test, or the number of rows where there is none.
fn next_row<F: Fn(u32) -> bool>(tasks: &[u32], from: usize, passes: F) -> usize
    requires { F.IsAlwaysCallable passes }
    ensures { (p : ℕ → Bool) → ((v : ℕ) (yes : Bool) → F.post passes v yes → yes ≡ p v)
        → result ≡ lowest_from (λ (j : ℕ). p (vcpu_of tasks.now j)) from (task_rows tasks.now) }
{
    // Kept: a loop by hand over the places where rows begin. With `find`, or a loop over the numbers of rows, the part
    // of a list that is all one VCPU's takes up to three times as long, by where the linker lays the longer loop.
    let rows = tasks.len() / TASK_WORDS;
    let mut at = TASK_WORDS * from.min(rows);
    while at < TASK_WORDS * rows {
        if passes(tasks[at]) {
            return at / TASK_WORDS;
        }
        at += TASK_WORDS;
    }
    rows
}

// The next row of the VCPU from a row on, or the number of rows where there is none.
// Kept: no Option, since the end of the rows is a place in the list like any other, and the part from there is empty.
pub fn next_own(tasks: &[u32], from: usize, vcpu: u32) -> usize
    ensures { result ≡ next_own tasks.now from vcpu }
{
    next_row(tasks, from, |v| v == vcpu)
}

// The VCPU's first row, or the number of rows where it has none.
#[tactic(auto, unfolding(crate::specs::Part::part_start))]
pub fn part_start(tasks: &[u32], vcpu: u32) -> usize
    ensures { result ≡ part_start tasks.now vcpu }
{
    next_own(tasks, 0, vcpu)
}

// The next row of another VCPU from a row on, or the number of rows where there is none.
fn next_other(tasks: &[u32], from: usize, vcpu: u32) -> usize
    ensures { result ≡ next_other tasks.now from vcpu }
{
    next_row(tasks, from, |v| v != vcpu)
}

// Kept: list, row and VCPU as three arguments, as the definitions of the part take them.
// The VCPU's next rows side by side, from a row on.
#[tactic(auto, using(crate::proofs::Parts::next_rows))]
pub fn part_from(tasks: &[u32], from: usize, vcpu: u32) -> &[u32]
    ensures { result.now ≡ part_from tasks.now from vcpu }
{
    let start = next_own(tasks, from, vcpu);
    let end = next_other(tasks, start, vcpu);
    &tasks[TASK_WORDS * start..TASK_WORDS * end]
}

#[tactic(auto, unfolding(crate::specs::Part::part_start, crate::specs::Part::part_from, crate::specs::Part::part_of))]
pub fn part(tasks: &[u32], vcpu: u32) -> &[u32]
    ensures { result.now ≡ part_of tasks.now vcpu }
{
    part_from(tasks, 0, vcpu)
}
