// Recolour: document 01, the change of a domain's active set, with refusals 2 to 9, 26, 12 and 13, and 02, Nos. 4 and
// 7. It changes the board, and hands it back beside its answer.
ghost use Rattle.std.specs.Prelude.{◌≡◌, true, false, ℕ, ◌≤◌};
ghost use Rattle.limits.specs.Limits.{most_frames};
ghost use Rattle.refusal.specs.Numbers.{reply_of, reply_with};
ghost use Rattle.tally.specs.Lanes.{sum_lanes};
ghost use Rattle.table_words.specs.Sets.{masked_in};
ghost use Rattle.calls.specs.Table.{state_of};
ghost use Rattle.calls.specs.Calls.{Moved, recolour as recolour_call, with_active, listed};
ghost use Rattle.choice.specs.LaneSums.{side_of};
ghost use Rattle.moves.specs.Steps.{set_reply, weighed};

use crate::moving::move_all;
use crate::new_set::NewSet;
use board::{Board, empty_or_outside};
use board_tests::check_call;
use choice::sum_side;
use pass::{Surveyed, survey};
use refusal::Refusal;
use table_words::word_for;

// Kept: the board beside the answer, since a call takes it by value and hands one back (docs/DECISIONS.md).
// The board afterwards, and the count of moves.
#[derive(Clone, Copy, Debug, PartialEq, Eq)]
pub struct Recoloured {
    pub board: Board,
    pub answer: Result<u32, Refusal>,
}

// The board on which a set is active. There is no domain past the eighth.
pub fn with_active(board: Board, domain: u32, set: u32) -> Board
    ensures { result ≡ with_active board domain set }
{
    let mut next = board;
    if domain < 8 {
        next.active[domain as usize] = set;
    }
    next
}

// Refusals 2 to 8, 26 and 9: of a call that makes a set active.
pub fn check_set(board: Board, words: usize, domain: u32, set: u32) -> Result<(), Refusal>
    ensures { reply_of result ≡ set_reply board words domain set }
{
    check_call(board, words, domain)?;
    if empty_or_outside(board.grant(domain), set) {
        return Err(Refusal::Set);
    }
    Ok(())
}

// The count of moves, by the frames held and the free frames of the lanes, or refusals 12 and 13.
fn weigh(lanes: Surveyed, colours: usize, set: u32, room: usize) -> Result<u32, Refusal>
    requires { sum_lanes (λ (i : ℕ). side_of false (masked_in colours set i)) lanes.held ≤ most_frames }
    ensures { reply_with Moved result ≡ weighed (sum_lanes (λ (i : ℕ). side_of false (masked_in colours set i)) lanes.held) (sum_lanes (λ (i : ℕ). side_of true (masked_in colours set i)) lanes.free) room }
{
    let count = sum_side(lanes.held, colours, set, false);
    if sum_side(lanes.free, colours, set, true) < count {
        return Err(Refusal::NoFreeFrame);
    }
    if room < 3 * count {
        return Err(Refusal::ShortList);
    }
    Ok(count as u32)
}

// The domain's frames outside the new set go to free frames inside it. A refusal leaves the table and the list as they
// were.
fn recolour_table(
    board: Board,
    table: &mut [u16],
    domain: u32,
    set: u32,
    moves: &mut [u16],
) -> Result<u32, Refusal>
    ensures answer_value { reply_with Moved result ≡ (recolour_call (state_of board table.old) domain set moves.old).reply }
    ensures table_after { table.new ≡ (recolour_call (state_of board table.old) domain set moves.old).next.table }
    ensures moves_after { moves.new ≡ listed (recolour_call (state_of board table.old) domain set moves.old).moves moves.old }
{
    check_set(board, table.len(), domain, set)?;
    let lanes = survey(table, word_for(domain, 0));
    let colours = board.colours as usize;
    let count = weigh(lanes, colours, set, moves.len())?;
    let new_set = NewSet {
        domain,
        colours,
        set,
    };
    move_all(table, moves, new_set, count as usize, lanes.held);
    Ok(count)
}

// The same, and the set becomes active. A refusal leaves the board as it was.
// Kept: one match here and one in `take_back`; a function for both would take the four values that it puts together.
pub fn recolour(
    board: Board,
    table: &mut [u16],
    domain: u32,
    set: u32,
    moves: &mut [u16],
) -> Recoloured
    ensures answer_value { reply_with Moved result.answer ≡ (recolour_call (state_of board table.old) domain set moves.old).reply }
    ensures board_value { result.board ≡ (recolour_call (state_of board table.old) domain set moves.old).next.board }
    ensures table_after { table.new ≡ (recolour_call (state_of board table.old) domain set moves.old).next.table }
    ensures moves_after { moves.new ≡ listed (recolour_call (state_of board table.old) domain set moves.old).moves moves.old }
{
    let answer = recolour_table(board, table, domain, set, moves);
    match answer {
        Ok(_) => Recoloured {
            board: with_active(board, domain, set),
            answer,
        },
        Err(_) => Recoloured { board, answer },
    }
}
