// What an arrival of each earlier task charges a task: document 02, No. 3. Going down from the task, the
// union of the sets passed is that of the task itself and of those ranked between.
ghost use Rattle.std.specs.Prelude.{◌≡◌, ◌+◌, ◌*◌};
ghost use Rattle.std.specs.Int.Bits.{bit_and};
ghost use Rattle.std.specs.Int.Count.{ones};
ghost use Rattle.rows.specs.RowWords.{colour_set, cost as cost_of};
ghost use Rattle.rows.specs.Reload.{planned_row, charges as charges_of};

use crate::TASK_SET;
use crate::words::{cost, task_word};

// How many colours of a task's set are among those held.
fn reloaded(tasks: &[u32], row: u32, held: u32) -> u32
    ensures { result ≡ ones (bit_and (colour_set tasks.now row) held) }
{
    (task_word(tasks, row, TASK_SET) & held).count_ones()
}

// An arrival of a task, where the tasks that it makes reload hold these colours: its cost, and the reload
// of each colour that it holds too.
fn charge(reload: u32, tasks: &[u32], row: u32, held: u32) -> u64
    ensures { result ≡ cost_of tasks.now row + reload * ones (bit_and (colour_set tasks.now row) held) }
{
    cost(tasks, row) as u64 + reload as u64 * (reloaded(tasks, row, held) as u64)
}

// A row that a plan may have, or row 0, which no row comes before.
#[tactic(auto, unfolding(crate::specs::Reload::planned_row))]
fn planned(i: u32) -> u32
    ensures { result ≡ planned_row i }
{
    if i < 32 { i } else { 0 }
}

// The charges of the rows before row i; 0 past them, and for a row past the 32nd.
pub fn charges(reload: u32, tasks: &[u32], i: u32) -> [u64; 32]
    ensures { result ≡ charges_of reload tasks.now i }
{
    let mut found = [0; 32];
    let mut j = planned(i);
    let mut held = task_word(tasks, j, TASK_SET);
    // Kept: a while loop; as a for loop downward the typical plan of 32 tasks took 20,113 instructions, not 19,892.
    while 0 < j {
        j -= 1;
        found[j as usize] = charge(reload, tasks, j, held);
        held |= task_word(tasks, j, TASK_SET);
    }
    found
}
