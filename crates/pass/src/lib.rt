// The passes over the frame table, in blocks of sixteen frames. That of a fault: document 02, Nos. 2 and 7, the
// words are taken in upwards, each once; what is kept between two words is `Tally` and the words of the block
// under way. And the counts that a quota, a recolouring and a taking back are judged by. Words beyond 4,096 are not
// read, since no table has them.
#![tactic(auto)]

mod block;
mod lanes;
mod own;

ghost use Rattle.std.specs.Prelude.{◌≡◌};
ghost use Rattle.tally.specs.Tally.{start, take_all};
ghost use Rattle.limits.specs.Limits.{last_first};
ghost use Rattle.pass.specs.Steps.{read, at_most};

use crate::block::{finish, found, lane_of, note, take_in};
use crate::lanes::words_read;
use crate::own::OwnWords;
pub use lanes::{Surveyed, count_own, held_lanes, survey};
use tally::Tally;

// What is kept when the words are over, or the page's word has come.
pub fn go_over(table: &[u16], word: u16, first: u16) -> Tally
    ensures { result ≡ take_all (start word (at_most last_first first)) (read table.now) }
{
    let own = OwnWords::new(first);
    let end = words_read(table);
    let mut held = [0u16; 16];
    let mut free = [0u16; 16];
    // Kept: a while loop; as a for loop over the blocks a fault on an empty table took 10,547 instructions, not 9,504.
    let mut taken: usize = 0;
    while 16 <= end - taken {
        let mut block = [0u16; 16];
        if take_in(
            &table[taken..taken + 16],
            word,
            own,
            &free,
            &mut held,
            &mut block,
        ) {
            if let Some(lane) = lane_of(block, 16, word) {
                return found(word, own.first, taken + lane + 1);
            }
            free = note(block, 16, free, taken);
        }
        taken += 16;
    }
    finish(&table[taken..end], word, own, held, free, taken)
}
