// The number of colours of a cache: document 01, N = B / (W × 4,096), and refusal 2.
ghost use Rattle.std.specs.Prelude.{◌≡◌};
ghost use Rattle.colours.specs.Cache.{is_colour_count, cache_reply};
ghost use Rattle.refusal.specs.Numbers.{reply_of};

use refusal::Refusal;

// Whether a number of colours is one that is taken.
#[tactic(auto, unfolding(crate::specs::Cache::is_colour_count))]
pub fn is_colour_count(colours: u32) -> bool
    ensures { result ≡ is_colour_count colours }
{
    matches!(colours, 1 | 2 | 4 | 8 | 16)
}

// The number of colours of a cache. W × 4,096 may exceed 64 bits, so pages and ways are divided one after the other.
#[tactic(auto, unfolding(crate::specs::Cache::cache_reply, refusal::specs::Reply::unless))]
pub fn cache_colours(bytes: u64, ways: u64) -> Result<u32, Refusal>
    ensures { reply_of result ≡ cache_reply bytes ways }
{
    if ways == 0 {
        return Err(Refusal::Colours);
    }
    if bytes % 4096 != 0 {
        return Err(Refusal::Colours);
    }
    let pages = bytes / 4096;
    if pages % ways != 0 {
        return Err(Refusal::Colours);
    }
    let colours = pages / ways;
    if 16 < colours {
        return Err(Refusal::Colours);
    }
    let colours = colours as u32;
    if is_colour_count(colours) {
        Ok(colours)
    } else {
        Err(Refusal::Colours)
    }
}
