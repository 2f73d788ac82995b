// Counts of the whole table: the frames that the domain holds, by which a quota is judged; and by lane, that is by a
// frame's number modulo sixteen, these frames, by which a taking back is judged, and with them the free ones, by which
// a recolouring is.
ghost use Rattle.std.specs.Prelude.{◌≡◌, ◌≤◌, length, if◌then◌else◌};
ghost use Rattle.tally.specs.Tally.{is_own, zeros, count_all};
ghost use Rattle.limits.specs.Limits.{most_frames, last_first};
ghost use Rattle.pass.specs.Steps.{read, at_most, is_free, LanesFit, own_in, lanes_of, survey_of};

use crate::own::OwnWords;
use limits::MOST_FRAMES;

#[derive(Clone, Copy, Debug, PartialEq, Eq)]
pub struct Surveyed {
    pub held: [u16; 16],
    pub free: [u16; 16],
}

// How many words of a table are read.
#[tactic(auto, unfolding(crate::specs::Steps::at_most))]
pub(crate) fn words_read(table: &[u16]) -> usize
    ensures { result ≡ at_most most_frames (length table.now) }
{
    table.len().min(MOST_FRAMES)
}

// 1 where a word is that of a free frame and these are wanted, else 0.
fn free_frame<const FREE: bool>(word: u16) -> u16
    ensures { result ≡ (if is_free FREE word then 1 else 0) }
{
    u16::from(FREE & (word == 0))
}

// Kept: the domain's words and a block's words as two arguments, since one of the first serves every block.

// Counts the words of a block, the domain's and where it is wanted the free frames', all lanes alike, so that the
// compiler counts them at once. No count reaches 8,192; with the remainder the compiler leaves the order of the words
// as it is, which is faster.
fn count_in<const FREE: bool>(
    words: &[u16],
    own: OwnWords,
    held: &mut [u16; 16],
    free: &mut [u16; 16],
)
    requires { (length words.now ≤ 16) × LanesFit held.old × LanesFit free.old }
    ensures held_after { held.new ≡ count_all (is_own own.first) held.old 0 words.now }
    ensures free_after { free.new ≡ count_all (is_free FREE) free.old 0 words.now }
{
    for (i, &word) in words.iter().enumerate() {
        held[i] = (held[i] + own.count(word)) % 8192;
        free[i] += free_frame::<FREE>(word);
    }
}

// How many words of the table are the domain's, in 16 bits, as the words are, so that the compiler counts many at
// once.
pub fn count_own(table: &[u16], first: u16) -> u16
    ensures { result ≡ own_in (at_most last_first first) (read table.now) }
{
    let own = OwnWords::new(first);
    let end = words_read(table);
    let mut count: u16 = 0;
    for &word in &table[..end] {
        count += own.count(word);
    }
    count
}

// The lanes of the whole table, with the free frames where they are wanted.
fn count_lanes<const FREE: bool>(table: &[u16], first: u16) -> Surveyed
    ensures { result ≡ lanes_of FREE (at_most last_first first) (read table.now) }
{
    let own = OwnWords::new(first);
    let end = words_read(table);
    let mut held = [0u16; 16];
    let mut free = [0u16; 16];
    let blocks = end / 16;
    for block in 0..blocks {
        let taken = 16 * block;
        count_in::<FREE>(&table[taken..taken + 16], own, &mut held, &mut free);
    }
    count_in::<FREE>(&table[16 * blocks..end], own, &mut held, &mut free);
    Surveyed { held, free }
}

// The domain's words and the free frames by lane.
#[tactic(auto, unfolding(crate::specs::Steps::survey_of, crate::specs::Steps::lanes_of))]
pub fn survey(table: &[u16], first: u16) -> Surveyed
    ensures { result ≡ survey_of (at_most last_first first) (read table.now) }
{
    count_lanes::<true>(table, first)
}

// The domain's words alone.
#[tactic(auto, unfolding(crate::specs::Steps::lanes_of))]
pub fn held_lanes(table: &[u16], first: u16) -> [u16; 16]
    ensures { result ≡ count_all (is_own (at_most last_first first)) zeros 0 (read table.now) }
{
    count_lanes::<false>(table, first).held
}
