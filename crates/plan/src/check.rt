// Refusals 15 to 20 of a plan: document 01, "Refusals in the order tested". One number is tested over
// all rows before the next, and the lowest row at fault is named.
ghost use Rattle.std.specs.Prelude.{◌≡◌, ◌≤◌, length};
ghost use Rattle.refusal.specs.Reply.{unless};
ghost use Rattle.refusal.specs.Numbers.{reply_of};
ghost use Rattle.plan.specs.Tests.{bad_vcpu_words, bad_task_words, row_tests, plan_reply};

use crate::fields::{bad_order, bad_task, bad_vcpu, shares_with_later};
use board::Board;
use refusal::Refusal;
use rows::{TASK_WORDS, VCPU_WORDS};

const MOST_RELOAD: u32 = 10000;

// Sixteen VCPUs and thirty-two tasks.
const MOST_VCPU_WORDS: usize = 64;

const MOST_TASK_WORDS: usize = 640;

// Refusals 15 to 20 of a plan, where the shorter of the lists of times and of rounds has so many words.
#[tactic(auto, unfolding(crate::specs::Tests::plan_reply, crate::specs::Tests::plan_tests, refusal::specs::Reply::unless))]
pub fn check_plan(
    board: Board,
    reload: u32,
    vcpus: &[u32],
    tasks: &[u32],
    room: usize,
) -> Result<(), Refusal>
    ensures { reply_of result ≡ plan_reply board reload vcpus.now tasks.now room }
{
    if bad_vcpu_words(reload, vcpus.len()) {
        return Err(Refusal::VcpuWords);
    }
    if bad_task_words(vcpus.len() / VCPU_WORDS, tasks.len(), room) {
        return Err(Refusal::TaskWords);
    }
    check_rows(&board, vcpus, tasks)
}

// 15: the reload, or the number of VCPU words.
fn bad_vcpu_words(reload: u32, words: usize) -> bool
    ensures { result ≡ bad_vcpu_words reload words }
{
    let size = (words == 0) | (MOST_VCPU_WORDS < words);
    (MOST_RELOAD < reload) | (size | (words % VCPU_WORDS != 0))
}

// 16: the number of task words, or room for fewer words than VCPU rows and task rows.
fn bad_task_words(rows: usize, words: usize, room: usize) -> bool
    requires { rows ≤ 16 }
    ensures { result ≡ bad_task_words rows words room }
{
    let size = (words == 0) | (MOST_TASK_WORDS < words);
    size | ((words % TASK_WORDS != 0) | (room < rows + words / TASK_WORDS))
}

// 17 to 20. Of two task rows that share a colour the lower is at fault first.
fn check_rows(board: &Board, vcpus: &[u32], tasks: &[u32]) -> Result<(), Refusal>
    requires { (length vcpus.now ≤ 64) × (length tasks.now ≤ 640) }
    ensures { reply_of result ≡ unless (row_tests board.now vcpus.now tasks.now) tt }
{
    let vcpu_rows = (vcpus.len() / VCPU_WORDS) as u32;
    if let Some(row) = (0..vcpu_rows).find(|&i| bad_vcpu(board, vcpus, i)) {
        return Err(Refusal::VcpuRow(row));
    }
    let task_rows = (tasks.len() / TASK_WORDS) as u32;
    if let Some(row) = (0..task_rows).find(|&j| bad_task(board, vcpus, tasks, j)) {
        return Err(Refusal::TaskRow(row));
    }
    if let Some(row) = (0..task_rows).find(|&j| bad_order(tasks, j)) {
        return Err(Refusal::TaskOrder(row));
    }
    if let Some(row) = (0..task_rows).find(|&j| shares_with_later(tasks, task_rows, j)) {
        return Err(Refusal::SharedColour(row));
    }
    Ok(())
}
