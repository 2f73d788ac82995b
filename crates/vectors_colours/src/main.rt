// Answers the separate tool's vectors of `refusal` and `colours`. A case is five words, the operation and
// its numbers; the first five hold the count of cases. A line is written for each case.
#![tactic(auto)]

use refusal::RowNames;
use std::io::Read;
use vectors_input::{next_word, number, text, told};

fn long_word(low: u32, high: u32) -> u64 {
    low as u64 + 4294967296 * (high as u64)
}

fn row_names(out: &impl Print, number: u32) {
    match refusal::row_names(number) {
        RowNames::Domain => text(out, "domain\n"),
        RowNames::PlanRow => text(out, "plan row\n"),
        RowNames::Nothing => text(out, "nothing\n"),
    }
}

// The operations, by their numbers in a case. Any other number asks what a refusal's row names.
#[derive(Clone, Copy)]
enum Operation {
    CacheColours,
    Layout,
    Bleach,
    DropColourBits,
    RowNames,
}

impl From<u32> for Operation {
    fn from(number: u32) -> Operation {
        match number {
            1 => Operation::CacheColours,
            2 => Operation::Layout,
            3 => Operation::Bleach,
            4 => Operation::DropColourBits,
            _ => Operation::RowNames,
        }
    }
}

fn answer(input: &mut impl Read, out: &impl Print) {
    let operation = Operation::from(next_word(input));
    let a = next_word(input);
    let b = next_word(input);
    let c = next_word(input);
    let d = next_word(input);
    match operation {
        Operation::CacheColours => {
            told(
                out,
                "",
                colours::cache_colours(long_word(a, b), long_word(c, d)),
            )
        }
        Operation::Layout => told(out, "", colours::layout(a, b, c)),
        Operation::Bleach => told(out, "", colours::bleach(a, b, c)),
        Operation::DropColourBits => number(out, colours::drop_colour_bits(a, b, c) as u64),
        Operation::RowNames => row_names(out, a),
    }
}

fn main(rt: HostRuntime) {
    let mut input = rt.stdin();
    let mut first = [0u32; 5];
    vectors_input::next_words(&mut input, &mut first);
    for _ in 0..first[0] {
        answer(&mut input, &rt);
    }
}
