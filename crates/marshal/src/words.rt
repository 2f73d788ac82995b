// The board of a caller in C, who lends it as 27 words: N, F, the domain count, eight grants,
// eight active sets and eight quotas.
ghost use Rattle.std.specs.Prelude.{◌≡◌, ◌≤◌};
ghost use Rattle.refusal.specs.Numbers.{reply_with};
ghost use Rattle.calls.specs.Calls.{Moved, with_active};
ghost use Rattle.marshal.specs.BoardWords.{words_from, board_of, words_after};

use board::Board;
use refusal::Refusal;

// The grants, the active sets or the quotas, from word `at` on.
#[tactic(auto, using(crate::proofs::BoardRoundTrip::taken))]
fn eight(words: &[u32; 27], at: usize) -> [u32; 8]
    requires { at ≤ 19 }
    ensures { result ≡ words_from at 8 words.now }
{
    let mut list = [0; 8];
    list.copy_from_slice(&words[at..at + 8]);
    list
}

// The board that the words stand for.
pub fn board_of(words: &[u32; 27]) -> Board
    ensures { result ≡ board_of words.now }
{
    Board {
        colours: words[0],
        frames: words[1],
        domains: words[2],
        grants: eight(words, 3),
        active: eight(words, 11),
        quotas: eight(words, 19),
    }
}

// The words after a recolouring or a taking back: the domain's active set is the new one where the call answers, and a
// refusal writes none.
pub fn write_recoloured(words: &mut [u32; 27], answer: Result<u32, Refusal>, domain: u32, set: u32)
    ensures { words.new ≡ words_after (reply_with Moved answer) (with_active (board_of words.old) domain set) words.old }
{
    if let Ok(_) = answer {
        if domain < 8 {
            words[11 + domain as usize] = set;
        }
    }
}
