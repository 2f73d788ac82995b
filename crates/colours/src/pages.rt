// Layout and bleaching: document 01, index to page and page to index under a colour set, with
// refusals 2 and 9 to 11; and bleaching by dropping colour bits.
ghost use Rattle.std.specs.Prelude.{◌≡◌};
ghost use Rattle.colours.specs.Pages.{layout_reply, bleach_reply, drop_bits};
ghost use Rattle.refusal.specs.Numbers.{reply_of};

use crate::cache::is_colour_count;
use crate::sets::{colour_at, has_colour, is_colour_set, place_of};
use refusal::Refusal;

// 2^24 − 1 and 2^28 − 1: the last index of one colour of 16 is laid out on the last page.
const LAST_INDEX: u32 = 0xFF_FFFF;

const LAST_BLEACHED: u32 = 0xFFF_FFFF;

// Kept: layout and bleaching begin with the same two tests, written in each in the order in which they refuse.

// The page of an index: rows of N pages, and in each row the pages of the set's colours.
#[tactic(auto, unfolding(crate::specs::Pages::layout_reply, refusal::specs::Reply::unless))]
pub fn layout(colours: u32, set: u32, index: u32) -> Result<u32, Refusal>
    ensures { reply_of result ≡ layout_reply colours set index }
{
    if !is_colour_count(colours) {
        return Err(Refusal::Colours);
    }
    if !is_colour_set(colours, set) {
        return Err(Refusal::Set);
    }
    if LAST_INDEX < index {
        return Err(Refusal::Page);
    }
    let size = set.count_ones();
    let colour = colour_at(colours, set, index % size);
    Ok(index / size * colours + colour)
}

// The index of a page whose colour is in the set: the way back.
#[tactic(auto, unfolding(crate::specs::Pages::bleach_reply, refusal::specs::Reply::unless))]
pub fn bleach(colours: u32, set: u32, page: u32) -> Result<u32, Refusal>
    ensures { reply_of result ≡ bleach_reply colours set page }
{
    if !is_colour_count(colours) {
        return Err(Refusal::Colours);
    }
    if !is_colour_set(colours, set) {
        return Err(Refusal::Set);
    }
    if LAST_BLEACHED < page {
        return Err(Refusal::Page);
    }
    let colour = page % colours;
    if !has_colour(set, colour) {
        return Err(Refusal::OtherColour);
    }
    let size = set.count_ones();
    Ok(page / colours * size + place_of(set, colour))
}

// A page number without those of its colour bits, the lowest `bits`, that lie above the lowest
// `kept`. Bits that lie above come down; where there is nothing to drop it is the page itself.
pub fn drop_colour_bits(bits: u32, kept: u32, page: u32) -> u32
    ensures { result ≡ drop_bits bits kept page }
{
    if bits <= kept || 32 <= kept {
        return page;
    }
    let low = page & ((1 << kept) - 1);
    if 32 <= bits {
        return low;
    }
    page >> bits << kept | low
}
