// Whether the colour of a frame is in a set, and by lane, that is by a frame's number modulo sixteen, how many words
// of a domain are strays there: all where the lane's colour is outside the set, and none where it is inside.
ghost use Rattle.std.specs.Prelude.{◌≡◌};
ghost use Rattle.table_words.specs.Sets.{masked_in, limit_of, LimitsBy};

use colours::has_colour;

// The number of colours is a power of two, so that a mask gives the remainder.
// Kept: colours and set apart, as `masked_in` and `LimitsBy` of the definitions take them.
#[tactic(auto, unfolding(crate::specs::Sets::masked_in), using(colours::proofs::Ranges::own_colour))]
pub fn in_set(colours: usize, set: u32, frame: usize) -> bool
    ensures { result ≡ masked_in colours set frame }
{
    let mask = colours.wrapping_sub(1);
    has_colour(set, ((frame & mask) % 32) as u32)
}

fn limit_of(colours: usize, set: u32, lane: usize) -> u16
    ensures { result ≡ limit_of colours set lane }
{
    if in_set(colours, set, lane) {
        0
    } else {
        limits::PAGES as u16
    }
}

// How many words from a domain's first one on are those of strays, by lane.
pub fn limits_of(colours: usize, set: u32) -> [u16; 16]
    ensures { LimitsBy colours set result }
{
    std::array::from_fn(|lane| limit_of(colours, set, lane))
}
