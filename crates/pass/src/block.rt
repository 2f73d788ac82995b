// A block of at most sixteen frames. Its words are read into an array, those of the domain are counted, and
// whether one of them matters is found on the way, all lanes alike, so that the compiler compares them at once.
// Only where one does is the array looked through, and not the table again.
ghost use Rattle.std.specs.Prelude.{◌≡◌, ◌++◌, ℕ, ◌+◌, ◌≤◌, length, take, drop};
ghost use Rattle.lists.specs.Range.{upto, any_of, is_at, lowest_below};
ghost use Rattle.tally.specs.Tally.{is_own, LanesAtMost, count_all, note_all, take_all, so_far, found as found_at};
ghost use Rattle.pass.specs.Steps.{matters, AtBlock, LanesFit};

use crate::own::OwnWords;
use tally::Tally;

// Reads the words, counts the domain's, and says whether one of them is the page's, or is that of a free frame
// in a lane that has none yet. This is the one place where a fault reads the table.
// Kept: what a `Tally` holds, apart; with a tally as the loop's variable the pass took 5,589 instructions, not 5,284.
pub(crate) fn take_in(
    words: &[u16],
    word: u16,
    own: OwnWords,
    free: &[u16; 16],
    held: &mut [u16; 16],
    block: &mut [u16; 16],
) -> bool
    requires { (length words.now ≤ 16) × LanesFit held.old × (16 ≡ length block.old) }
    ensures value { result ≡ any_of (matters words.now word free.now) (upto (length words.now)) }
    ensures held_after { held.new ≡ count_all (is_own own.first) held.old 0 words.now }
    ensures block_after { block.new ≡ words.now ++ drop (length words.now) block.old }
{
    let mut stop = false;
    for (i, &held_word) in words.iter().enumerate() {
        block[i] = held_word;
        held[i] += own.count(held_word);
        stop |= (held_word == word) | ((held_word == 0) & (free[i] == 0));
    }
    stop
}

// Kept: the block by value, and how many of it are filled: lent, a pass took 6,000 instructions, not 5,284.
// The lowest lane of a block with a word.
pub(crate) fn lane_of(block: [u16; 16], filled: usize, word: u16) -> Option<usize>
    requires { filled ≤ 16 }
    ensures { result ≡ lowest_below (is_at block word) filled }
{
    (0..filled).find(|&lane| block[lane] == word)
}

// The lowest free frames by lane, with those of a block after so many words.
pub(crate) fn note(block: [u16; 16], filled: usize, free: [u16; 16], taken: usize) -> [u16; 16]
    requires { AtBlock taken filled }
    ensures { result ≡ note_all free taken (take filled block) }
{
    let mut next = free;
    for i in 0..filled {
        if (block[i] == 0) & (next[i] == 0) {
            next[i] = (taken + i + 1) as u16;
        }
    }
    next
}

// What is kept while the page's word has not come.
fn so_far(word: u16, first: u16, held: [u16; 16], free: [u16; 16], taken: usize) -> Tally
    ensures { result ≡ so_far word first held free taken }
{
    Tally {
        word,
        first,
        held,
        free,
        taken,
        mapped: 0,
    }
}

// What is kept once it has come.
#[tactic(auto, unfolding(tally::specs::Tally::zeros))]
pub(crate) fn found(word: u16, first: u16, taken: usize) -> Tally
    ensures { result ≡ found_at word first taken }
{
    Tally {
        word,
        first,
        held: [0; 16],
        free: [0; 16],
        taken,
        mapped: taken,
    }
}

// What is kept after the last words, which are fewer than sixteen.
pub(crate) fn finish(
    words: &[u16],
    word: u16,
    own: OwnWords,
    held: [u16; 16],
    free: [u16; 16],
    taken: usize,
) -> Tally
    requires { AtBlock taken (length words.now) × LanesAtMost taken held }
    ensures { result ≡ take_all (so_far word own.first held free taken) words.now }
{
    let mut counts = held;
    let mut block = [0u16; 16];
    if take_in(words, word, own, &free, &mut counts, &mut block) {
        if let Some(lane) = lane_of(block, words.len(), word) {
            return found(word, own.first, taken + lane + 1);
        }
        let noted = note(block, words.len(), free, taken);
        return so_far(word, own.first, counts, noted, taken + words.len());
    }
    so_far(word, own.first, counts, free, taken + words.len())
}
