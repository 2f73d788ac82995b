// The colours of a cache, layout and bleaching for callers in C: document 01, "Colours of the cache".
ghost use Rattle.std.specs.Prelude.{◌≡◌, ℕ};
ghost use Rattle.lists.specs.Naming.{With};
ghost use Rattle.refusal.specs.Reply.{Reply};
ghost use Rattle.colours.specs.Cache.{cache_reply};
ghost use Rattle.colours.specs.Pages.{layout_reply, bleach_reply};
ghost use Rattle.marshal.specs.Replies.{number_of, row_of, value_of, itself};

use marshal::ReplyNumbers;

// The number N of colours of a cache.
#[unsafe(no_mangle)]
pub extern "C" fn juzvanec_cache_colours(
    bytes: u64,
    ways: u64,
    colours: &mut u32,
    row: &mut u32,
) -> u32
    ensures { With (cache_reply bytes ways) (λ (o : Reply ℕ).
        (result ≡ number_of o)
        × (colours.new ≡ value_of itself o)
        × (row.new ≡ row_of o)) }
{
    let told = ReplyNumbers::from(colours::cache_colours(bytes, ways));
    *colours = told.value;
    *row = told.row;
    told.number
}

// The page of an index under a colour set.
#[unsafe(no_mangle)]
pub extern "C" fn juzvanec_layout(
    colours: u32,
    set: u32,
    index: u32,
    page: &mut u32,
    row: &mut u32,
) -> u32
    ensures { With (layout_reply colours set index) (λ (o : Reply ℕ).
        (result ≡ number_of o)
        × (page.new ≡ value_of itself o)
        × (row.new ≡ row_of o)) }
{
    let told = ReplyNumbers::from(colours::layout(colours, set, index));
    *page = told.value;
    *row = told.row;
    told.number
}

// The index of a page under a colour set.
#[unsafe(no_mangle)]
pub extern "C" fn juzvanec_bleach(
    colours: u32,
    set: u32,
    page: u32,
    index: &mut u32,
    row: &mut u32,
) -> u32
    ensures { With (bleach_reply colours set page) (λ (o : Reply ℕ).
        (result ≡ number_of o)
        × (index.new ≡ value_of itself o)
        × (row.new ≡ row_of o)) }
{
    let told = ReplyNumbers::from(colours::bleach(colours, set, page));
    *index = told.value;
    *row = told.row;
    told.number
}
