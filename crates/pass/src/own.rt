// The words of a domain, by the first of them. A first word above 61,440, which no domain has, is taken for 61,440, so
// that all 4,096 from it on are words.
ghost use Rattle.std.specs.Prelude.{◌≡◌, ◌≤◌, if◌then◌else◌};
ghost use Rattle.limits.specs.Limits.{last_first};

use limits::{LAST_FIRST, PAGES};
use table_words::is_among;

#[derive(Clone, Copy, Debug, PartialEq, Eq)]
pub(crate) struct OwnWords {
    pub first: u16,
    ghost low: { first ≤ last_first },
}

impl OwnWords {
    ghost use Rattle.tally.specs.Tally.{is_own};
    ghost use Rattle.pass.specs.Steps.{at_most};

    #[tactic(auto, unfolding(crate::specs::Steps::at_most))]
    pub(crate) fn new(first: u16) -> OwnWords
        ensures { result.first ≡ at_most last_first first }
    {
        OwnWords {
            first: first.min(LAST_FIRST),
        }
    }

    // 1 where a word is one of them, else 0.
    #[tactic(auto, using(table_words::proofs::DomainWords::among_own))]
    pub(crate) fn count(self, word: u16) -> u16
        ensures { result ≡ (if is_own self.first word then 1 else 0) }
    {
        u16::from(is_among(word, self.first, PAGES as u16))
    }
}
