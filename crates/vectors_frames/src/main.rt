// Answers the separate tool's vectors of the frame table: scripts of the calls. The input is the
// words that `vectors_input` reads; output.rt writes the lines of each call. Tables, boards and move
// lists are compared by a hash.
#![tactic(auto)]

use board::Board;
use std::io::Read;
use vectors_input::next_word;

mod output;

// The calls, by their numbers in a script. Any number above those sets a quota too.
#[derive(Clone, Copy)]
enum Call {
    Look,
    Fault,
    Release,
    Colours,
    Recolour,
    SetQuota,
    TakeBack,
}

impl From<u32> for Call {
    fn from(number: u32) -> Call {
        match number {
            0 => Call::Look,
            1 => Call::Fault,
            2 => Call::Release,
            3 => Call::Colours,
            4 => Call::Recolour,
            6 => Call::TakeBack,
            _ => Call::SetQuota,
        }
    }
}

// The move list that a recolouring is lent holds words that tell whether one was changed.
fn recolour(
    input: &mut impl Read,
    out: &impl Print,
    board: Board,
    table: &mut [u16],
    domain: u32,
    set: u32,
) -> Board {
    let mut room = [0u16; 13000];
    let moves = vectors_input::marked_table(input, &mut room);
    let done = moves::recolour(board, table, domain, set, moves);
    output::recoloured(out, done, table);
    output::moves(out, moves, done.answer.unwrap_or(0));
    done.board
}

// The list that a taking back reads is hashed afterwards too, since it must not change.
fn take_back(
    input: &mut impl Read,
    out: &impl Print,
    board: Board,
    table: &mut [u16],
    domain: u32,
    set: u32,
) -> Board {
    let mut room = [0u16; 13000];
    let moves = vectors_input::next_table(input, &mut room);
    let done = taking_back::take_back(board, table, domain, set, moves);
    output::recoloured(out, done, table);
    output::list(out, moves);
    done.board
}

// The quota is set on a board by value, as set_quota sets it on a lent one.
fn set_quota(out: &impl Print, board: Board, table: &[u16], domain: u32, quota: u32) -> Board {
    let asked = frames::ask_quota(board, table, domain, quota);
    let quotas = asked.quotas;
    let after = Board { quotas, ..board };
    vectors_input::told(out, "quota ", asked.answer);
    output::table(out, table);
    output::board(out, after);
    vectors_input::text(out, "\n");
    after
}

// The calls that have no list.
fn answer_alone(
    out: &impl Print,
    board: Board,
    table: &mut [u16],
    call: Call,
    domain: u32,
    argument: u32,
) -> Board {
    match call {
        Call::SetQuota => return set_quota(out, board, table, domain, argument),
        Call::Look => output::looked(out, frames::look(board, table, domain, argument)),
        Call::Fault => output::faulted(out, frames::fault(board, table, domain, argument)),
        Call::Release => vectors_input::told(
            out,
            "freed ",
            frames::release(board, table, domain, argument),
        ),
        Call::Colours => output::active(out, frames::colours(board, table, domain)),
        Call::Recolour | Call::TakeBack => {}
    }
    output::table(out, table);
    board
}

// A call's words are its number, the domain, a page, a set or a quota, and the length of the move list, which
// every call has and recolourings and takings back alone use; a taking back has the words of its list behind it.
fn answer(input: &mut impl Read, out: &impl Print, board: Board, table: &mut [u16]) -> Board {
    let call = Call::from(next_word(input));
    let domain = next_word(input);
    let argument = next_word(input);
    match call {
        Call::Recolour => recolour(input, out, board, table, domain, argument),
        Call::TakeBack => take_back(input, out, board, table, domain, argument),
        _ => {
            next_word(input);
            answer_alone(out, board, table, call, domain, argument)
        }
    }
}

fn script(input: &mut impl Read, out: &impl Print) {
    let mut board = vectors_input::next_whole_board(input);
    let mut room = [0u16; 4200];
    let table = vectors_input::next_table(input, &mut room);
    for _ in 0..next_word(input) {
        board = answer(input, out, board, table);
    }
}

fn main(rt: HostRuntime) {
    let mut input = rt.stdin();
    for _ in 0..next_word(&mut input) {
        script(&mut input, &rt);
    }
}
