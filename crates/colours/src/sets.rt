// Colour sets: document 01, a number whose bit c stands for colour c, and the places of its colours.
ghost use Rattle.std.specs.Prelude.{◌≡◌, ◌%◌, ◌≤◌, ◌<◌};
ghost use Rattle.colours.specs.Sets.{is_colour_set, has, colour_at, place_of};

// Whether a set is not empty and all its colours are below the number of colours.
pub fn is_colour_set(colours: u32, set: u32) -> bool
    ensures { result ≡ is_colour_set colours set }
{
    if set == 0 {
        return false;
    }
    if 32 <= colours {
        return true;
    }
    set >> colours == 0
}

// Whether a colour is in a set: one of its 32 bits, whatever the colour.
pub fn has_colour(set: u32, colour: u32) -> bool
    ensures { result ≡ has set (colour % 32) }
{
    (set >> (colour % 32)) % 2 == 1
}

// How many colours of a set are below a colour.
pub(crate) fn place_of(set: u32, colour: u32) -> u32
    requires { colour < 32 }
    ensures { result ≡ place_of set colour }
{
    let below = (1 << colour) - 1;
    (set & below).count_ones()
}

// Kept: 0 and no Option where there is none, as the definition `colour_at` has it.
// The colour at a place, or 0 where the set has no such place.
pub(crate) fn colour_at(colours: u32, set: u32, place: u32) -> u32
    requires { colours ≤ 32 }
    ensures { result ≡ colour_at colours set place }
{
    let mut left = place;
    for colour in 0..colours {
        if has_colour(set, colour) {
            if left == 0 {
                return colour;
            }
            left -= 1;
        }
    }
    0
}
