// Answers the separate tool's vectors of plans: admissions, parts and supplies. The input is the words
// that `vectors_input` reads; output.rt writes the lines of each case. Lists are compared by a hash.
#![tactic(auto)]

use board::Board;
use std::io::Read;

mod output;

// The lists of times and of rounds that an admission is lent hold words that tell whether one was changed.
fn admit(
    input: &mut impl Read,
    out: &impl Print,
    board: Board,
    reload: u32,
    vcpus: &[u32],
    tasks: &[u32],
) {
    let mut time_room = [0u32; 60];
    let times = vectors_input::marked_list(input, &mut time_room);
    let mut round_room = [0u32; 60];
    let rounds = vectors_input::marked_list(input, &mut round_room);
    let answer = admission::admit_plan(board, reload, vcpus, tasks, times, rounds);
    output::admission(
        out,
        answer,
        times,
        rounds,
        vcpus.len() / 4 + tasks.len() / 20,
    );
}

fn admission_case(input: &mut impl Read, out: &impl Print) {
    let board = vectors_input::next_board(input);
    let reload = vectors_input::next_word(input);
    let mut vcpu_room = [0u32; 80];
    let vcpus = vectors_input::next_list(input, &mut vcpu_room);
    let mut task_room = [0u32; 700];
    let tasks = vectors_input::next_list(input, &mut task_room);
    admit(input, out, board, reload, vcpus, tasks);
}

fn part_case(input: &mut impl Read, out: &impl Print) {
    let vcpu = vectors_input::next_word(input);
    let mut room = [0u32; 700];
    let tasks = vectors_input::next_list(input, &mut room);
    let own = rows::part(tasks, vcpu);
    vectors_input::part(out, "part ", own.len() as u64);
    vectors_input::line(out, " ", vectors_input::hash_words(0, own));
}

fn supply_case(input: &mut impl Read, out: &impl Print) {
    let period = vectors_input::next_word(input);
    let budget = vectors_input::next_word(input);
    let t = vectors_input::next_word(input);
    vectors_input::text(out, "supply ");
    vectors_input::number(out, supply::least(period, budget, t));
}

// The kinds of cases, by their numbers. Any number above those asks for a supply too.
#[derive(Clone, Copy)]
enum Case {
    Admission,
    Part,
    Supply,
}

impl From<u32> for Case {
    fn from(number: u32) -> Case {
        match number {
            0 => Case::Admission,
            1 => Case::Part,
            _ => Case::Supply,
        }
    }
}

fn answer(input: &mut impl Read, out: &impl Print) {
    match Case::from(vectors_input::next_word(input)) {
        Case::Admission => admission_case(input, out),
        Case::Part => part_case(input, out),
        Case::Supply => supply_case(input, out),
    }
}

fn main(rt: HostRuntime) {
    let mut input = rt.stdin();
    for _ in 0..vectors_input::next_word(&mut input) {
        answer(&mut input, &rt);
    }
}
