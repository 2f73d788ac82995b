// Admission of a plan: document 01, "Plans", refusals 2 to 7 and 15 to 22 in order, and to two lent lists
// the times in row order and their rounds (document 02, No. 9). The need of a row and the search for its
// time are in `need` and `search`.
#![tactic(auto)]

mod need;
mod row_times;
mod search;

ghost use Rattle.std.specs.Prelude.{◌≡◌, ◌+◌, ◌≤◌};
ghost use Rattle.refusal.specs.Reply.{unless};
ghost use Rattle.refusal.specs.Numbers.{reply_of};
ghost use Rattle.rows.specs.RowWords.{vcpu_rows, task_rows};
ghost use Rattle.rows.specs.ValidRows.{Plan};
ghost use Rattle.admission.specs.Admission.{time_tests, room_of, leaving, judged_by, judged};

use crate::row_times::RowTimes;
use board::Board;
use board_tests::check_board;
use plan::check_plan;
use refusal::Refusal;
use rows::{TASK_WORDS, VCPU_WORDS};

// Kept: the lists apart and side by side in every call, as docs/guide/rattle.md names them.
// The verdict on a plan. Admitted, one list holds the times of the VCPUs and then of the tasks, the other the
// rounds in which they were found; refused, both are as they were.
pub fn admit_plan(
    board: Board,
    reload: u32,
    vcpus: &[u32],
    tasks: &[u32],
    times: &mut [u32],
    rounds: &mut [u32],
) -> Result<(), Refusal>
    ensures { leaving (reply_of result) times.new rounds.new ≡ judged board reload vcpus.now tasks.now times.old rounds.old }
{
    check_board(board, board.frames as usize)?;
    let room = times.len().min(rounds.len());
    check_plan(board, reload, vcpus, tasks, room)?;
    admit_rows(reload, vcpus, tasks, times, rounds)
}

// 21 and 22 of a plan that passes the rest.
fn admit_rows(
    reload: u32,
    vcpus: &[u32],
    tasks: &[u32],
    times: &mut [u32],
    rounds: &mut [u32],
) -> Result<(), Refusal>
    requires { Plan reload vcpus.now tasks.now × (vcpu_rows vcpus.now + task_rows tasks.now ≤ room_of times.old rounds.old) }
    ensures { leaving (reply_of result) times.new rounds.new ≡ judged_by (unless (time_tests reload vcpus.now tasks.now) tt) reload vcpus.now tasks.now times.old rounds.old }
{
    let mut found = RowTimes::none();
    let vcpu_rows = (vcpus.len() / VCPU_WORDS) as u32;
    if let Some(row) = found.vcpu_times(vcpus, vcpu_rows) {
        return Err(Refusal::LateVcpu(row));
    }
    let task_rows = (tasks.len() / TASK_WORDS) as u32;
    if let Some(row) = found.task_times(reload, vcpus, tasks, vcpu_rows, task_rows) {
        return Err(Refusal::LateTask(row));
    }
    let rows = (vcpu_rows + task_rows) as usize;
    times[..rows].copy_from_slice(&found.times[..rows]);
    rounds[..rows].copy_from_slice(&found.rounds[..rows]);
    Ok(())
}
