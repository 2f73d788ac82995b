// Taking a recolouring back: document 02, No. 10, with refusals 31 and 32. The list is judged first, and what is lent
// changes where all tests have passed. No public function requires anything of its caller.
#![tactic(auto)]

mod triples;

ghost use Rattle.std.specs.Prelude.{◌≡◌, ◌≤◌, length};
ghost use Rattle.limits.specs.Limits.{most_frames};
ghost use Rattle.refusal.specs.Numbers.{reply_with};
ghost use Rattle.calls.specs.Table.{state_of};
ghost use Rattle.calls.specs.Calls.{Moved, move_all};
ghost use Rattle.calls.specs.TakeBack.{take_back, move_list, backward};
ghost use Rattle.taking_back.specs.Triples.{NamesFrames, taken_back};

use crate::triples::{check_triples, triple_at};
use board::Board;
use choice::sum_side;
use moves::{NewSet, Recoloured, check_set, with_active};
use pass::held_lanes;
use refusal::Refusal;
use std::mem;
use table_words::word_for;

// Kept: that the table has at most 4,096 words stands in three contracts, two here and one in `moves`. The tests of the
// board say so, and the lent slice has no field to carry it.

// The count of moves, or refusals 31 and 32. The frames that lie outside the former set are those of the triples
// that do, or some would be left there.
fn judge_list(table: &[u16], former: NewSet, moves: &[u16]) -> Result<u32, Refusal>
    requires { length table.now ≤ most_frames }
    ensures { reply_with Moved result ≡ taken_back table.now former.colours former.domain former.set moves.now }
{
    let outside = check_triples(table, former, moves)?;
    let held = held_lanes(table, word_for(former.domain, 0));
    if sum_side(held, former.colours, former.set, false) != outside {
        return Err(Refusal::FramesOutside);
    }
    Ok((moves.len() / 3) as u32)
}

// Each triple's word goes from its new frame to its old one.
fn move_back(table: &mut [u16], moves: &[u16])
    requires { NamesFrames (length table.old) moves.now }
    ensures { table.new ≡ move_all table.old (backward (move_list moves.now)) }
{
    for i in 0..moves.len() / 3 {
        let triple = triple_at(moves, i);
        table[triple.old] = mem::take(&mut table[triple.new]);
    }
}

// The frames of the triples go back to their old frames. A refusal leaves the table as it was.
fn restore_table(
    board: Board,
    table: &mut [u16],
    domain: u32,
    set: u32,
    moves: &[u16],
) -> Result<u32, Refusal>
    ensures answer_value { reply_with Moved result ≡ (take_back (state_of board table.old) domain set moves.now).reply }
    ensures table_after { table.new ≡ (take_back (state_of board table.old) domain set moves.now).next.table }
{
    check_set(board, table.len(), domain, set)?;
    let former = NewSet {
        domain,
        colours: board.colours as usize,
        set,
    };
    let count = judge_list(table, former, moves)?;
    move_back(table, moves);
    Ok(count)
}

// The same, and the former set becomes active. A refusal leaves the board as it was.
pub fn take_back(
    board: Board,
    table: &mut [u16],
    domain: u32,
    set: u32,
    moves: &[u16],
) -> Recoloured
    ensures answer_value { reply_with Moved result.answer ≡ (take_back (state_of board table.old) domain set moves.now).reply }
    ensures board_value { result.board ≡ (take_back (state_of board table.old) domain set moves.now).next.board }
    ensures table_after { table.new ≡ (take_back (state_of board table.old) domain set moves.now).next.table }
{
    let answer = restore_table(board, table, domain, set, moves);
    match answer {
        Ok(_) => Recoloured {
            board: with_active(board, domain, set),
            answer,
        },
        Err(_) => Recoloured { board, answer },
    }
}
