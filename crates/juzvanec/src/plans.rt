// Admission of a plan and the part of a VCPU for callers in C: document 01, "Plans".
ghost use Rattle.std.specs.Prelude.{◌≡◌, ◌*◌, length as length_of};
ghost use Rattle.rows.specs.Part.{part_start, part_of};
ghost use Rattle.lists.specs.Naming.{With};
ghost use Rattle.admission.specs.Admission.{Judged, judged};
ghost use Rattle.marshal.specs.BoardWords.{board_of};
ghost use Rattle.marshal.specs.Replies.{number_of, row_of};

use marshal::{ReplyNumbers, board_of};

// The part of a VCPU: it starts at word `start` of the caller's list and has `length` words.
#[unsafe(no_mangle)]
pub extern "C" fn juzvanec_part(tasks: &[u32], vcpu: u32, start: &mut usize, length: &mut usize)
    ensures start_after { start.new ≡ 20 * part_start tasks.now vcpu }
    ensures length_after { length.new ≡ length_of (part_of tasks.now vcpu) }
{
    let first = rows::part_start(tasks, vcpu);
    *start = rows::TASK_WORDS * first;
    *length = rows::part_from(tasks, first, vcpu).len();
}

// The verdict on a plan. Admitted, `times` holds the times of the VCPUs and then of the tasks, and `rounds`
// those in which each was found.
#[unsafe(no_mangle)]
pub extern "C" fn juzvanec_admit_plan(
    board: &[u32; 27],
    reload: u32,
    vcpus: &[u32],
    tasks: &[u32],
    times: &mut [u32],
    rounds: &mut [u32],
    row: &mut u32,
) -> u32
    ensures { With (judged (board_of board.now) reload vcpus.now tasks.now times.old rounds.old) (λ (o : Judged).
        (result ≡ number_of o.reply)
        × (row.new ≡ row_of o.reply)
        × (times.new ≡ o.times)
        × (rounds.new ≡ o.rounds)) }
{
    let told = ReplyNumbers::from(admission::admit_plan(
        board_of(board),
        reload,
        vcpus,
        tasks,
        times,
        rounds,
    ));
    *row = told.row;
    told.number
}
