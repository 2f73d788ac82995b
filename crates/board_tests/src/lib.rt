// The tests of a board: refusals 2 to 8 and 26, document 01, "Board and frame table", and 02, No. 6. check_board tests
// a board with a frame table of so many words, as admission does; check_call a call of a domain. No public function
// requires anything of its caller.
#![tactic(auto)]

mod domains;

ghost use Rattle.std.specs.Prelude.{◌≡◌};
ghost use Rattle.refusal.specs.Numbers.{reply_of};
ghost use Rattle.board.specs.Tests.{bad_quotas, board_reply, state_reply, call_reply};

use crate::domains::check_domains;
use board::{Board, no_quota};
use colours::is_colour_count;
use limits::MOST_FRAMES;
use refusal::Refusal;

const MOST_DOMAINS: u32 = 8;

// Refusals 2 to 7. A count above 8 stops here before any domain's field is read.
pub fn check_board(board: Board, words: usize) -> Result<(), Refusal>
    ensures { reply_of result ≡ board_reply board words }
{
    check_shape(&board, words)
}

// The same of a board that is lent: with a copy at each step a look in the first frames took half as long again.
fn check_shape(board: &Board, words: usize) -> Result<(), Refusal>
    ensures { reply_of result ≡ board_reply board.now words }
{
    if !is_colour_count(board.colours) {
        return Err(Refusal::Colours);
    }
    let frames = board.frames;
    if frames == 0 || MOST_FRAMES < frames as usize || words != frames as usize {
        return Err(Refusal::Frames);
    }
    let domains = board.domains;
    if domains == 0 || MOST_DOMAINS < domains {
        return Err(Refusal::Domains);
    }
    check_domains(board)
}

// 26: whether the quota of a domain below the count is none.
fn bad_quotas(board: &Board) -> bool
    ensures { result ≡ bad_quotas board.now }
{
    (0..board.domains).any(|d| no_quota(board.quota(d)))
}

// Refusals 2 to 7 and 26. The quotas are gone over only where the rest of the board passes.
fn check_state(board: &Board, words: usize) -> Result<(), Refusal>
    ensures { reply_of result ≡ state_reply board.now words }
{
    check_shape(board, words)?;
    if bad_quotas(board) {
        return Err(Refusal::BoardQuotas);
    }
    Ok(())
}

// Refusals 2 to 7, 26 and 8: what every call that names a domain starts with.
pub fn check_call(board: Board, words: usize, domain: u32) -> Result<(), Refusal>
    ensures { reply_of result ≡ call_reply board words domain }
{
    check_state(&board, words)?;
    if domain < board.domains {
        Ok(())
    } else {
        Err(Refusal::CallingDomain)
    }
}
