// Whether one row is at fault for refusal 17, 18, 19 or 20: document 01, "Refusals in the order
// tested". Each function gives the answer of the definition that it names.
ghost use Rattle.std.specs.Prelude.{◌≡◌, ◌+◌, ◌*◌, ◌<◌, length};
ghost use Rattle.lists.specs.Range.{from, any_of};
ghost use Rattle.board.specs.Tests.{grant, empty_or_outside};
ghost use Rattle.rows.specs.RowWords.{task_word, domain, task_rows};
ghost use Rattle.plan.specs.Tests.{zero_or_above, bad_times, bad_vcpu, bad_cost, bad_fields, bad_task, bad_order, shares_with_later};

use board::{Board, empty_or_outside};
use rows::{
    TASK_DEADLINE, TASK_PERIOD, TASK_SET, TASK_VCPU, TASK_WORDS, VCPU_BUDGET, VCPU_CORE,
    VCPU_DOMAIN, VCPU_PERIOD, VCPU_WORDS, vcpu_word,
};

const LAST_CORE: u32 = 3;

const LONGEST: u32 = 1000000;

fn zero_or_above(limit: u32, x: u32) -> bool
    ensures { result ≡ zero_or_above limit x }
{
    (x == 0) | (limit < x)
}

// A period, and a budget or deadline up to it.
fn bad_times(period: u32, time: u32) -> bool
    ensures { result ≡ bad_times period time }
{
    zero_or_above(LONGEST, period) || zero_or_above(period, time)
}

// 17: core, domain, period or budget.
pub(crate) fn bad_vcpu(board: &Board, vcpus: &[u32], row: u32) -> bool
    ensures { result ≡ bad_vcpu board.now vcpus.now row }
{
    let core = vcpu_word(vcpus, row, VCPU_CORE);
    let domain = vcpu_word(vcpus, row, VCPU_DOMAIN);
    let period = vcpu_word(vcpus, row, VCPU_PERIOD);
    let budget = vcpu_word(vcpus, row, VCPU_BUDGET);
    (LAST_CORE < core) | !(domain < board.domains) || bad_times(period, budget)
}

// The set is empty, or outside the grant of its VCPU's domain.
fn bad_set(board: &Board, vcpus: &[u32], vcpu: u32, set: u32) -> bool
    ensures { result ≡ empty_or_outside (grant board.now (domain vcpus.now vcpu)) set }
{
    let granted = board.grant(vcpu_word(vcpus, vcpu, VCPU_DOMAIN));
    empty_or_outside(granted, set)
}

// Word k of a task's row that is known to be there.
// Kept: each row is known to be below the count; with words that read as 0 past the end, which need no such fact,
// the plan of 32 tasks that docs/BENCHMARK.md measures took 26,589 instructions in place of 19,066.
fn known_word(tasks: &[u32], row: u32, k: u32) -> u32
    requires { 20 * row + k < length tasks.now }
    ensures { result ≡ task_word tasks.now row k }
{
    tasks[TASK_WORDS * (row as usize) + k as usize]
}

// All sixteen costs are tested, whatever the number of colours. Each is held against the one before, and
// the first against the limit, so that no other is above it either.
fn bad_costs(tasks: &[u32], row: u32) -> bool
    requires { row < task_rows tasks.now }
    ensures { result ≡ any_of (bad_cost tasks.now row) (from 1 16) }
{
    let mut before = LONGEST;
    for k in 1..17 {
        let cost = known_word(tasks, row, TASK_SET + k);
        if zero_or_above(before, cost) {
            return true;
        }
        before = cost;
    }
    false
}

// VCPU, period, deadline or colour set.
fn bad_fields(board: &Board, vcpus: &[u32], tasks: &[u32], row: u32) -> bool
    requires { row < task_rows tasks.now }
    ensures { result ≡ bad_fields board.now vcpus.now tasks.now row }
{
    let vcpu = known_word(tasks, row, TASK_VCPU);
    let period = known_word(tasks, row, TASK_PERIOD);
    let deadline = known_word(tasks, row, TASK_DEADLINE);
    let set = known_word(tasks, row, TASK_SET);
    let known = (vcpu as usize) < vcpus.len() / VCPU_WORDS;
    !known || (bad_times(period, deadline) || bad_set(board, vcpus, vcpu, set))
}

// 18: a field or a cost.
pub(crate) fn bad_task(board: &Board, vcpus: &[u32], tasks: &[u32], row: u32) -> bool
    requires { row < task_rows tasks.now }
    ensures { result ≡ bad_task board.now vcpus.now tasks.now row }
{
    bad_fields(board, vcpus, tasks, row) || bad_costs(tasks, row)
}

// 19: a lower VCPU than the row before.
pub(crate) fn bad_order(tasks: &[u32], row: u32) -> bool
    requires { row < task_rows tasks.now }
    ensures { result ≡ bad_order tasks.now row }
{
    0 < row && known_word(tasks, row, TASK_VCPU) < known_word(tasks, row - 1, TASK_VCPU)
}

// 20: a colour in common with a row of another VCPU that comes later.
pub(crate) fn shares_with_later(tasks: &[u32], rows: u32, row: u32) -> bool
    requires { (rows ≡ task_rows tasks.now) × (row < rows) }
    ensures { result ≡ shares_with_later tasks.now row }
{
    let vcpu = known_word(tasks, row, TASK_VCPU);
    let set = known_word(tasks, row, TASK_SET);
    (row + 1..rows).any(|k| {
        known_word(tasks, k, TASK_VCPU) != vcpu && set & known_word(tasks, k, TASK_SET) != 0
    })
}
