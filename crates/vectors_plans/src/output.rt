// The lines of each case: the reply, the hash of the list of times and of that of rounds and, where the plan
// is admitted, behind each hash the words of all rows.
use refusal::Refusal;
use vectors_input::{hash_words, line, part, refused, text};

fn list_line(out: &impl Print, list: &[u32]) {
    line(out, "list ", hash_words(0, list));
}

fn words_line(out: &impl Print, name: &str, list: &[u32], rows: usize) {
    let Some(words) = list.get(..rows) else {
        return;
    };
    text(out, name);
    for &word in words {
        part(out, " ", word as u64);
    }
    text(out, "\n");
}

pub fn admission(
    out: &impl Print,
    answer: Result<(), Refusal>,
    times: &[u32],
    rounds: &[u32],
    rows: usize,
) {
    match answer {
        Ok(()) => {
            text(out, "admitted\n");
            list_line(out, times);
            words_line(out, "times", times, rows);
            list_line(out, rounds);
            words_line(out, "rounds", rounds, rows);
        }
        Err(refusal) => {
            refused(out, refusal);
            list_line(out, times);
            list_line(out, rounds);
        }
    }
}
