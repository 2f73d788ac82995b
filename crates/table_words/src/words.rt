// The words of the table: document 01, word 1 + 4,096 × domain + page is held by that domain for that page. The words
// of a domain stand side by side, so that how far one lies above the first tells whose it is and for which page.
ghost use Rattle.std.specs.Prelude.{◌≡◌, ◌+◌, ◌*◌, ◌%◌};
ghost use Rattle.limits.specs.Limits.{pages};
ghost use Rattle.table_words.specs.Words.{above, among};

// The word of a frame that a domain holds for a page, in 16 bits.
pub fn word_for(domain: u32, page: u32) -> u16
    ensures { result ≡ (1 + pages * domain + page) % 65536 }
{
    let first = (domain << 12).wrapping_add(1);
    (first.wrapping_add(page) % 65536) as u16
}

// How far a word lies above a first one, counted round after 65,535: the page for which the domain with this first
// word holds it, or a number above the last page where the domain does not.
pub fn page_of(word: u16, first: u16) -> u16
    ensures { result ≡ above first word }
{
    word.wrapping_sub(first)
}

// Whether a word is one of so many from a first one on: with the first word of a domain and all its pages, whether it
// belongs to the domain.
#[tactic(auto, unfolding(crate::specs::Words::among))]
pub fn is_among(word: u16, first: u16, count: u16) -> bool
    ensures { result ≡ among first count word }
{
    page_of(word, first) < count
}
