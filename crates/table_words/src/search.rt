// Searches over the frame table, ascending: the lowest frame with a word, and the next stray.
ghost use Rattle.std.specs.Prelude.{◌≡◌, ℕ, ◌+◌, ◌≤◌, length};
ghost use Rattle.lists.specs.Range.{upto, any_of, is_at, lowest, lowest_from, lowest_below};
ghost use Rattle.table_words.specs.Sets.{next_stray};

use crate::words::is_among;

// Whether one of sixteen words is a given one. All are read, so that they can be compared at once.
fn has_word(block: &[u16], word: u16) -> bool
    ensures { result ≡ any_of (is_at block.now word) (upto (length block.now)) }
{
    block
        .iter()
        .fold(false, |found, &held| found | (held == word))
}

// A frame from which on a word may be looked for in place of all: sixteen frames at a time are passed over that do
// not have it.
fn pass_to_word(table: &[u16], word: u16) -> usize
    ensures { (result ≤ length table.now) × (lowest (is_at table.now word) (length table.now) ≡ lowest_from (is_at table.now word) result (length table.now)) }
{
    let blocks = table.len() / 16;
    for block in 0..blocks {
        let f = 16 * block;
        if has_word(&table[f..f + 16], word) {
            return f;
        }
    }
    16 * blocks
}

// The lowest frame that has a word.
pub fn lowest_word(table: &[u16], word: u16) -> Option<usize>
    ensures { result ≡ lowest_below (is_at table.now word) (length table.now) }
{
    // Kept: a loop and no `find`, with which a look of a page in the first frames took 266 instructions, not 260.
    for f in pass_to_word(table, word)..table.len() {
        if table[f] == word {
            return Some(f);
        }
    }
    None
}

// The lowest frame from one on whose word is among those of strays, by the limit of its lane.
// Kept: a number, the table's end where none is left; its callers have counted the strays, and know that one is left.
pub fn next_stray(table: &[u16], start: usize, first: u16, limits: &[u16; 16]) -> usize
    ensures { result ≡ next_stray table.now first limits.now start }
{
    // Kept: a while loop; as a for loop a recolouring of 2,000 frames took 208,958 instructions in place of 188,972.
    let mut f = start;
    while f < table.len() {
        if is_among(table[f], first, limits[f % 16]) {
            return f;
        }
        f += 1;
    }
    f
}
