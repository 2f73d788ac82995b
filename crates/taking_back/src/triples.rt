// The triples of a list as 31 judges them: document 02, No. 10. Each is tested by itself, with marks for the frames
// that the list names; the list is only read.
ghost use Rattle.std.specs.Prelude.{◌≡◌, not, ◌*◌, ◌+◌, ◌≤◌, ◌<◌, length, set as store};
ghost use Rattle.limits.specs.Limits.{most_frames};
ghost use Rattle.refusal.specs.Numbers.{reply_of};
ghost use Rattle.taking_back.specs.Triples.{unfit, move_of, move_at, is_marked, outside, triples_reply};

use limits::{MOST_FRAMES, PAGES};
use moves::NewSet;
use refusal::Refusal;
use std::mem;
use table_words::{in_set, is_among, word_for};

// A page, its old frame and its new one.
#[derive(Clone, Copy, Debug, PartialEq, Eq)]
pub(crate) struct Triple {
    pub(crate) page: u16,
    pub(crate) old: usize,
    pub(crate) new: usize,
}

// A triple of the list.
pub(crate) fn triple_at(moves: &[u16], i: usize) -> Triple
    requires { 3 * i + 2 < length moves.now }
    ensures { move_of result.page result.old result.new ≡ move_at moves.now i }
{
    let at = 3 * i;
    Triple {
        page: moves[at],
        old: moves[at + 1] as usize,
        new: moves[at + 2] as usize,
    }
}

// Whether 31 has nothing against a triple by itself: the word for its page belongs to the domain, and the new frame
// has it; the old frame is free, with a colour in the set.
fn fits(table: &[u16], former: NewSet, triple: Triple) -> bool
    ensures { result ≡ not (unfit table.now former.colours former.domain former.set (move_of triple.page triple.old triple.new)) }
{
    if (table.len() <= triple.old) | (table.len() <= triple.new) {
        return false;
    }
    let word = word_for(former.domain, triple.page as u32);
    let first = word_for(former.domain, 0);
    if !is_among(word, first, PAGES as u16) | (table[triple.new] != word) {
        return false;
    }
    (table[triple.old] == 0) & in_set(former.colours, former.set, triple.old)
}

// Marks a frame, and says whether it was marked.
fn mark(marks: &mut [u8; MOST_FRAMES], frame: usize) -> bool
    requires { (most_frames ≡ length marks.old) × (frame < most_frames) }
    ensures value { result ≡ is_marked marks.old frame }
    ensures marks_after { marks.new ≡ store marks.old frame 1 }
{
    mem::replace(&mut marks[frame], 1) == 1
}

// 1 where a frame lies outside a set, else 0.
fn is_outside(former: NewSet, frame: usize) -> usize
    ensures { result ≡ outside former.colours former.set frame }
{
    usize::from(!in_set(former.colours, former.set, frame))
}

// Goes through the list once, and counts the new frames outside the former set. A frame that is named twice is found
// by its mark, one byte for each frame that a board can have.
pub(crate) fn check_triples(table: &[u16], former: NewSet, moves: &[u16]) -> Result<usize, Refusal>
    requires { length table.now ≤ most_frames }
    ensures { reply_of result ≡ triples_reply table.now former.colours former.domain former.set moves.now }
{
    if moves.len() % 3 != 0 {
        return Err(Refusal::Triples);
    }
    let mut marks = [0u8; MOST_FRAMES];
    let mut outside: usize = 0;
    for i in 0..moves.len() / 3 {
        let triple = triple_at(moves, i);
        if !fits(table, former, triple) {
            return Err(Refusal::Triples);
        }
        let old_again = mark(&mut marks, triple.old);
        let new_again = mark(&mut marks, triple.new);
        if old_again | new_again {
            return Err(Refusal::Triples);
        }
        outside += is_outside(former, triple.new);
    }
    Ok(outside)
}
