// The times of all rows and their rounds, VCPUs first, up to the first row that is late: document 01, refusals
// 21 and 22, and document 02, No. 9. They are kept apart from the lent lists until no row is late.
ghost use Rattle.std.specs.Prelude.{◌≡◌, ◌+◌, ◌≤◌, ◌<◌, length, set};
ghost use Rattle.rows.specs.RowWords.{vcpu_rows, task_rows, vcpu_of};
ghost use Rattle.rows.specs.Part.{part_start};
ghost use Rattle.rows.specs.ValidRows.{Vcpus, Plan};
ghost use Rattle.times.specs.Times.{vcpu_time, task_time as task_time_of};
ghost use Rattle.times.specs.Rounds.{vcpu_rounds, task_rounds};
ghost use Rattle.admission.specs.Paper.{paper_found};
ghost use Rattle.admission.specs.RowTimes.{Roomy, Timed};

use crate::search::{Search, time_in_part, vcpu_time};
use rows::{TASK_VCPU, VCPU_BUDGET, VCPU_PERIOD, next_own, part_from, task_word, vcpu_word};

// The times that were found and their rounds, in row order.
// Kept: the room for 48 rows stands in three contracts. As ghost fields it was tried: the struct then imports `Timed`,
// which names the struct, and the check refuses the circle.
#[derive(Clone, Copy, Debug, PartialEq, Eq)]
pub(crate) struct RowTimes {
    pub times: [u32; 48],
    pub rounds: [u32; 48],
}

impl RowTimes {
    pub(crate) fn none() -> RowTimes
        ensures { Roomy result }
    {
        RowTimes {
            times: [0; 48],
            rounds: [0; 48],
        }
    }

    fn keep(&mut self, row: u32, time: u32, rounds: u32)
        requires { Roomy self.old × (row < 48) }
        ensures times { self.new.times ≡ set self.old.times row time }
        ensures rounds { self.new.rounds ≡ set self.old.rounds row rounds }
    {
        self.times[row as usize] = time;
        self.rounds[row as usize] = rounds;
    }

    // The first VCPU that is late, if one is; where none is, the times and rounds of all stand in front.
    pub(crate) fn vcpu_times(&mut self, vcpus: &[u32], rows: u32) -> Option<u32>
        requires { Vcpus vcpus.now × (rows ≡ vcpu_rows vcpus.now) × Roomy self.old }
        ensures { Timed (vcpu_time vcpus.now) (vcpu_rounds vcpus.now) rows 0 self.old result self.new }
    {
        for i in 0..rows {
            let search = vcpu_time(vcpus, i);
            let Some(time) = search.found else {
                return Some(i);
            };
            self.keep(i, time, search.rounds);
        }
        None
    }

    // The same of the tasks, whose times and rounds stand after the `first` that are known. Rows stand in
    // ascending VCPU, so that the part of a row is looked for from that of the row before.
    // Kept: two loops, since this one carries on where the part of the row before starts.
    pub(crate) fn task_times(
        &mut self,
        reload: u32,
        vcpus: &[u32],
        tasks: &[u32],
        first: u32,
        rows: u32,
    ) -> Option<u32>
        requires { Plan reload vcpus.now tasks.now × (first ≤ 16) × (rows ≡ task_rows tasks.now) × Roomy self.old }
        ensures { Timed (task_time_of reload vcpus.now tasks.now) (task_rounds reload vcpus.now tasks.now) rows first self.old result self.new }
    {
        let mut start = 0;
        for j in 0..rows {
            start = next_own(tasks, start, task_word(tasks, j, TASK_VCPU));
            let search = task_time(reload, vcpus, tasks, start, j);
            let Some(time) = search.found else {
                return Some(j);
            };
            self.keep(first + j, time, search.rounds);
        }
        None
    }
}

// Kept: `reload` and the two lists, and what is known of them, stay apart, as in the definitions that clauses name.
// The time of a row of the task list, over the part of its VCPU alone, which starts at a known row.
fn task_time(reload: u32, vcpus: &[u32], tasks: &[u32], start: usize, j: u32) -> Search
    requires { Plan reload vcpus.now tasks.now × (j < task_rows tasks.now) × (start ≡ part_start tasks.now (vcpu_of tasks.now j)) }
    ensures found_value { paper_found result.found ≡ task_time_of reload vcpus.now tasks.now j }
    ensures rounds_value { result.rounds ≡ task_rounds reload vcpus.now tasks.now j }
{
    let v = task_word(tasks, j, TASK_VCPU);
    let own = part_from(tasks, start, v);
    time_in_part(
        vcpu_word(vcpus, v, VCPU_PERIOD),
        vcpu_word(vcpus, v, VCPU_BUDGET),
        reload,
        own,
        j - start as u32,
    )
}
