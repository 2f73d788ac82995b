// The words of the input, and the plan that they hold: document 01, "Examples from the recorder".
ghost use Rattle.std.specs.Prelude.{◌≡◌, ◌<◌, ◌≤◌, ◌||◌, ltb, length};
ghost use Rattle.admission.specs.Admission.{leaving, judged};
ghost use Rattle.refusal.specs.Numbers.{reply_of};
ghost use Rattle.report.specs.Input.{word_in, words_in, domain_count, vcpu_count, task_count, board_in, reload_in, vcpus_in, tasks_in};

use crate::MOST_DOMAINS;
use admission::admit_plan;
use board::{Board, first_quotas};
use refusal::Refusal;
use rows::{TASK_WORDS, VCPU_WORDS};
use text::{MOST_TASKS, MOST_VCPUS};

// What the counts of an input say, whether or not it is as long as they say.
#[derive(Clone, Copy, Debug, PartialEq, Eq)]
pub(crate) struct Rows {
    pub domains: usize,
    pub vcpus: usize,
    pub tasks: usize,
}

// Word k of the input; a byte beyond it reads as 0. No index wraps: word counts are 32-bit numbers, so that k stays far
// below 2^62.
#[tactic(auto, unfolding(crate::specs::Input::word_in))]
fn word_in(input: &[u8], k: usize) -> u32
    requires { k < 1000000000000000000 }
    ensures { result ≡ word_in input.now k }
{
    let byte = |i: usize| input.get(4 * k + i).copied().unwrap_or(0);
    u32::from_le_bytes([byte(0), byte(1), byte(2), byte(3)])
}

impl Rows {
    // Whether a count exceeds its limit.
    pub(crate) fn over_limit(self) -> bool
        ensures { result ≡ ltb 8 self.domains || ltb 16 self.vcpus || ltb 32 self.tasks }
    {
        MOST_DOMAINS < self.domains || MOST_VCPUS < self.vcpus || MOST_TASKS < self.tasks
    }
}

pub(crate) fn count_rows(input: &[u8]) -> Rows
    ensures { (result.domains ≡ domain_count input.now) × (result.vcpus ≡ vcpu_count input.now) × (result.tasks ≡ task_count input.now) }
{
    let domains = word_in(input, 2) as usize;
    let vcpus = word_in(input, 4 + domains) as usize;
    let tasks = word_in(input, 5 + domains + VCPU_WORDS * vcpus) as usize;
    Rows {
        domains,
        vcpus,
        tasks,
    }
}

// The words of the input from word k on fill the list.
fn read_words(input: &[u8], k: usize, list: &mut [u32])
    requires { (k < 1000000) × (length list.old < 1000000) }
    ensures { list.new ≡ words_in input.now k (length list.old) }
{
    for i in 0..list.len() {
        list[i] = word_in(input, k + i);
    }
}

fn read_board(input: &[u8], domains: usize) -> Board
    requires { (domains ≡ domain_count input.now) × (domains ≤ 8) }
    ensures { result ≡ board_in input.now }
{
    let mut grants = [0; 8];
    read_words(input, 3, &mut grants[..domains]);
    Board {
        colours: word_in(input, 0),
        frames: word_in(input, 1),
        domains: domains as u32,
        grants,
        active: grants,
        quotas: first_quotas(),
    }
}

// Admission of the plan that the input holds, where its counts are within their limits. The program prints
// no rounds.
pub(crate) fn judge(
    input: &[u8],
    rows: Rows,
    times: &mut [u32],
    rounds: &mut [u32],
) -> Result<(), Refusal>
    requires domains_value { (rows.domains ≡ domain_count input.now) × (rows.domains ≤ 8) }
    requires vcpus_value { (rows.vcpus ≡ vcpu_count input.now) × (rows.vcpus ≤ 16) }
    requires tasks_value { (rows.tasks ≡ task_count input.now) × (rows.tasks ≤ 32) }
    ensures { leaving (reply_of result) times.new rounds.new ≡ judged (board_in input.now) (reload_in input.now) (vcpus_in input.now) (tasks_in input.now) times.old rounds.old }
{
    let domains = rows.domains;
    let board = read_board(input, domains);
    let reload = word_in(input, 3 + domains);
    let vcpu_words = VCPU_WORDS * rows.vcpus;
    let mut first = [0; VCPU_WORDS * MOST_VCPUS];
    let vcpus = &mut first[..vcpu_words];
    read_words(input, 5 + domains, vcpus);
    let task_words = TASK_WORDS * rows.tasks;
    let mut second = [0; TASK_WORDS * MOST_TASKS];
    let tasks = &mut second[..task_words];
    read_words(input, 6 + domains + vcpu_words, tasks);
    admit_plan(board, reload, vcpus, tasks, times, rounds)
}
