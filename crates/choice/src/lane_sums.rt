// What sixteen lanes say: the count of a colour, its lowest free frame, and the counts on a side of a set and of all
// lanes. A lane is a frame's number modulo sixteen, and has one colour, since the number of colours divides sixteen.
ghost use Rattle.std.specs.Prelude.{◌≡◌, ℕ, ◌<◌, ◌≤◌, nat_lt};
ghost use Rattle.tally.specs.Lanes.{sum_lanes};
ghost use Rattle.table_words.specs.Sets.{masked_in};
ghost use Rattle.choice.specs.LaneSums.{side_of, lanes_of};

use table_words::in_set;

// A colour, and how many there are, at most 16.
#[derive(Clone, Copy, Debug, PartialEq, Eq)]
pub(crate) struct Colour {
    pub number: usize,
    pub count: usize,
    ghost below: { number < count },
    ghost few: { count ≤ 16 },
}

impl Colour {
    ghost use Rattle.calls.specs.OnePass.{held_by, free_by};

    // Its count: the sum over its lanes, which sixteen words keep far below 32 bits.
    pub(crate) fn sum_of(self, lanes: [u16; 16]) -> u32
        ensures { (result ≡ held_by self.count lanes self.number) × (result ≤ 2097120) }
    {
        // Kept: a while loop here and below; with step_by a fault on an empty table took 9,587 instructions, not 9,504.
        let mut sum: u32 = 0;
        let mut lane = self.number;
        while lane < 16 {
            sum += u32::from(lanes[lane]);
            lane += self.count;
        }
        sum
    }

    // Its lowest free frame, of so many frames: the least over its lanes. A lane has the number of its lowest free
    // frame and 1; one that has none, 0, is passed over, since one less in 64 bits is less than nothing.
    pub(crate) fn least_of(self, lanes: [u16; 16], frames: usize) -> usize
        ensures { result ≡ free_by self.count frames lanes self.number }
    {
        let mut least = frames;
        let mut lane = self.number;
        while lane < 16 {
            least = least.min(usize::from(lanes[lane]).wrapping_sub(1));
            lane += self.count;
        }
        least
    }
}

// Kept: the side as a value, as `side_of` of the definition takes it.

// Whether the colour of a lane is on a side of a set, in it or not.
fn on_side(colours: usize, set: u32, lane: usize, inside: bool) -> bool
    ensures { result ≡ side_of inside (masked_in colours set lane) }
{
    in_set(colours, set, lane) == inside
}

// How many words are counted in the lanes on a side of a set.
pub fn sum_side(lanes: [u16; 16], colours: usize, set: u32, inside: bool) -> usize
    ensures { result ≡ sum_lanes (λ (i : ℕ). side_of inside (masked_in colours set i)) lanes }
{
    let mut sum: usize = 0;
    for lane in 0..16 {
        if on_side(colours, set, lane, inside) {
            sum += usize::from(lanes[lane]);
        }
    }
    sum
}

// How many words are counted in all lanes. The number of colours is a power of two up to sixteen, so that its
// complement has the bit of sixteen; with an end that the compiler does not know it keeps the lanes together, which is
// faster.
// Kept: apart from the sum on a side; as that sum, with all colours for the set, a fault took 24,953 instructions.
pub fn sum_all(lanes: [u16; 16], colours: usize) -> usize
    ensures { result ≡ sum_lanes (λ (i : ℕ). nat_lt i (lanes_of colours)) lanes }
{
    let end = 0usize.wrapping_sub(colours) & 16;
    let mut sum: usize = 0;
    for lane in 0..end {
        sum += usize::from(lanes[lane]);
    }
    sum
}
