// The program `admit` from the bytes of its input to the bytes of its output: document 01, "Examples from
// the recorder", and refusal 1. `answer` is what the program calls, and `report` answers an input of any length;
// `plan_extent` says how many words the plan in front of an input takes, for callers that read several in a row.
#![tactic(auto)]

mod input;

ghost use Rattle.std.specs.Prelude.{◌≡◌, ℕ, ◌≤◌, true, false, List, length, take, MatchOption};
ghost use Rattle.refusal.specs.Numbers.{reply_of};
ghost use Rattle.report.specs.Report.{extent_reply, not_a_plan, verdict, words_taken, text_of};
ghost use Rattle.text.specs.Text.{over};

use crate::input::{count_rows, judge};
use refusal::Refusal;
use rows::{TASK_WORDS, VCPU_WORDS};
use text::{MOST_ROWS, TEXT_BYTES, write_admitted, write_refused};

// The longest plan has 718 words. One byte more tells an input that is too long, whatever follows it.
pub const INPUT_BYTES: usize = 2873;

const MOST_DOMAINS: usize = 8;

// Kept: 0 words and no Option for an input that is no plan, as `words_taken` says it and `juzvanec_admit` tells it.
// The verdict, how many words of the input the plan took, and how many bytes the text has.
#[derive(Clone, Copy, Debug, PartialEq, Eq)]
pub struct Reported {
    pub verdict: Result<(), Refusal>,
    pub words: u32,
    pub length: u32,
}

// How many words the plan in front of the input takes. The input may go on after it.
pub fn plan_extent(input: &[u8]) -> Result<u32, Refusal>
    ensures { reply_of result ≡ extent_reply input.now }
{
    let rows = count_rows(input);
    let domains = rows.domains;
    let vcpus = rows.vcpus;
    let tasks = rows.tasks;
    if rows.over_limit() {
        return Err(Refusal::NotAPlan);
    }
    let words = 6 + domains + VCPU_WORDS * vcpus + TASK_WORDS * tasks;
    if input.len() < 4 * words {
        return Err(Refusal::NotAPlan);
    }
    Ok(words as u32)
}

// The answer to a whole input. The text stands in front of the lent bytes, and the rest of them is as it
// was.
pub fn report(input: &[u8], text: &mut [u8; TEXT_BYTES]) -> Reported
    ensures verdict_value { reply_of result.verdict ≡ verdict input.now }
    ensures words_value { (result.words ≡ words_taken input.now) × (result.length ≡ length (text_of input.now)) × (result.length ≤ length text.new) }
    ensures text_after { text.new ≡ over (text_of input.now) text.old }
{
    match whole_plan(input) {
        Some(words) => report_plan(input, words, text),
        None => Reported {
            verdict: Err(Refusal::NotAPlan),
            words: 0,
            length: write_refused(text, Refusal::NotAPlan.number(), Refusal::NotAPlan.row()),
        },
    }
}

// Kept: the array, and how many of its bytes were read: so docs/guide/rattle.md names the call.
// What the program does between reading and writing: the text for an input, of which the array has the first
// bytes, and the text's length. `read` says how many bytes these are, and a number beyond the array means all of
// it. The last clause says that the rest of the input does not matter: an input that is longer than the array
// has the same text, whatever follows.
pub fn answer(input: &[u8; INPUT_BYTES], read: usize, text: &mut [u8; TEXT_BYTES]) -> usize
    ensures value { (result ≡ length (text_of (take read input.now))) × (result ≤ length text.new) }
    ensures text_after { text.new ≡ over (text_of (take read input.now)) text.old }
    ensures by_index { (whole : List ℕ) → take (length input.now) whole ≡ take read input.now → text_of whole ≡ text_of (take read input.now) }
{
    let kept = read.min(input.len());
    report(&input[..kept], text).length as usize
}

// How many words an input has that is one plan and nothing else.
fn whole_plan(input: &[u8]) -> Option<u32>
    ensures { MatchOption result (not_a_plan input.now ≡ true) (λ words. (not_a_plan input.now ≡ false) × (words ≡ words_taken input.now)) }
{
    let Ok(words) = plan_extent(input) else {
        return None;
    };
    if input.len() == 4 * words as usize {
        Some(words)
    } else {
        None
    }
}

fn report_plan(input: &[u8], words: u32, text: &mut [u8; TEXT_BYTES]) -> Reported
    requires { (not_a_plan input.now ≡ false) × (words ≡ words_taken input.now) }
    ensures verdict_value { reply_of result.verdict ≡ verdict input.now }
    ensures words_value { (result.words ≡ words_taken input.now) × (result.length ≡ length (text_of input.now)) × (result.length ≤ length text.new) }
    ensures text_after { text.new ≡ over (text_of input.now) text.old }
{
    let rows = count_rows(input);
    let mut times = [0; MOST_ROWS];
    let mut rounds = [0; MOST_ROWS];
    let verdict = judge(input, rows, &mut times, &mut rounds);
    let length = match verdict {
        Ok(()) => write_admitted(text, &times, rows.vcpus, rows.tasks),
        Err(refusal) => write_refused(text, refusal.number(), refusal.row()),
    };
    Reported {
        verdict,
        words,
        length,
    }
}
