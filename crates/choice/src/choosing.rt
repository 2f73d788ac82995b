// The colour whose turn it is, by keys: a colour of a set with a free frame has as its key sixteen times the frames
// held and its number, so that the fewest held, and of these the lowest colour, is the least.
ghost use Rattle.std.specs.Prelude.{◌≡◌, ◌+◌, ◌%◌, ◌<◌, ◌≤◌, nat_lt, if◌then◌else◌};
ghost use Rattle.colours.specs.Sets.{has};
ghost use Rattle.calls.specs.OnePass.{held_by, free_by};
ghost use Rattle.choice.specs.Keys.{as_count, full_key, key_of, FreesBy, KeysBy, LeastKey, ByLeastKey};

use crate::lane_sums::Colour;
use colours::has_colour;

// The key of a colour of which no frame can be taken.
// Kept: a number and no Option, so that the least of sixteen keys is one of 16 bits: 20 instructions, in 32 bits 50.
const FULL: u16 = 65535;

// A number of colours, at most 16: that of a board is itself.
#[tactic(auto, unfolding(crate::specs::Keys::as_count))]
fn as_count(colours: usize) -> usize
    ensures { result ≡ as_count colours }
{
    colours.min(16)
}

// The lowest free frame of a colour where it is in a set, else the number of frames.
// Kept: a number and no Option: sixteen frames are one array of words, and `key_of` compares them with the number.
fn free_of(lanes: [u16; 16], colour: Colour, set: u32, frames: usize) -> usize
    ensures { result ≡ (if has set colour.number then free_by colour.count frames lanes colour.number else frames) }
{
    if has_colour(set, colour.number as u32) {
        return colour.least_of(lanes, frames);
    }
    frames
}

// The same by colour.
fn frees_of(lanes: [u16; 16], colours: usize, set: u32, frames: usize) -> [usize; 16]
    ensures { FreesBy (as_count colours) frames set lanes result }
{
    let count = as_count(colours);
    let mut frees = [0usize; 16];
    for number in 0..count {
        frees[number] = free_of(lanes, Colour { number, count }, set, frames);
    }
    frees
}

fn key_of(held: [u16; 16], free: usize, colour: Colour, set: u32, frames: usize) -> u16
    ensures { result ≡ key_of colour.count frames set (held_by colour.count held) (λ y. free) colour.number }
{
    if frames <= free {
        return FULL;
    }
    if has_colour(set, colour.number as u32) {
        return ((16 * colour.sum_of(held) + colour.number as u32) % 65536) as u16;
    }
    FULL
}

// The keys of the colours, by the counts of the lanes and the lowest free frame of each colour.
// Kept: colours, set and frames apart, as `KeysBy`, `FreesBy` and `ByLeastKey` of the definitions take them.
pub fn keys_of(
    held: [u16; 16],
    frees: &[usize; 16],
    colours: usize,
    set: u32,
    frames: usize,
) -> [u16; 16]
    ensures { KeysBy (as_count colours) frames set held frees.now result }
{
    let count = as_count(colours);
    let mut keys = [FULL; 16];
    for number in 0..count {
        keys[number] = key_of(held, frees[number], Colour { number, count }, set, frames);
    }
    keys
}

// The least of the keys.
pub fn least_key(keys: &[u16; 16]) -> u16
    ensures { LeastKey keys.now result }
{
    let mut least = keys[0];
    for colour in 1..16 {
        least = least.min(keys[colour]);
    }
    least
}

// The key of a colour once a frame of it was taken, with the lowest free frame that is left.
pub fn next_key(key: u16, free: usize, frames: usize) -> u16
    ensures { result ≡ (if nat_lt free frames then (key + 16) % 65536 else full_key) }
{
    if free < frames {
        key.wrapping_add(16)
    } else {
        FULL
    }
}

// The frame to take, if there is one.
pub fn choose(
    held: [u16; 16],
    free: [u16; 16],
    colours: usize,
    set: u32,
    frames: usize,
) -> Option<usize>
    ensures { ByLeastKey (as_count colours) frames set held free result }
{
    let frees = frees_of(free, colours, set, frames);
    let keys = keys_of(held, &frees, colours, set, frames);
    let key = least_key(&keys);
    if key < FULL {
        Some(frees[(key % 16) as usize])
    } else {
        None
    }
}
