// The calls on the frame table for callers in C: document 01, "Board and frame table", and 02, Nos. 6 and 10. The
// board is lent as its 27 words, and recolour, take_back and set_quota alone change it; set_quota is lent the
// record itself.
ghost use Rattle.std.specs.Prelude.{◌≡◌};
ghost use Rattle.lists.specs.Naming.{With};
ghost use Rattle.calls.specs.Calls.{Outcome, look as look_call, fault as fault_call, release as release_call, colours as colours_call, recolour as recolour_call, set_quota, listed};
ghost use Rattle.calls.specs.TakeBack.{take_back};
ghost use Rattle.calls.specs.Table.{state_of};
ghost use Rattle.marshal.specs.BoardWords.{words_left, lent_state};
ghost use Rattle.marshal.specs.Replies.{number_of, row_of, value_of, number_in, second_in};

use board::Board;
use marshal::{ReplyNumbers, board_of, write_recoloured};

// The page's frame: `mapped` is 1 with the frame, or 0 with frame 0.
#[unsafe(no_mangle)]
pub extern "C" fn juzvanec_look(
    board: &[u32; 27],
    table: &[u16],
    domain: u32,
    page: u32,
    mapped: &mut u32,
    frame: &mut u32,
    row: &mut u32,
) -> u32
    ensures { With (look_call (lent_state board.now table.now) domain page) (λ (o : Outcome).
        (result ≡ number_of o.reply)
        × (mapped.new ≡ value_of second_in o.reply)
        × (frame.new ≡ value_of number_in o.reply)
        × (row.new ≡ row_of o.reply)) }
{
    let told = ReplyNumbers::from(frames::look(board_of(board), table, domain, page));
    *mapped = told.second;
    *frame = told.value;
    *row = told.row;
    told.number
}

// The page's frame, old or new: `is_new` is 1 where the page got it now, and 0 where it had it.
#[unsafe(no_mangle)]
pub extern "C" fn juzvanec_fault(
    board: &[u32; 27],
    table: &mut [u16],
    domain: u32,
    page: u32,
    is_new: &mut u32,
    frame: &mut u32,
    row: &mut u32,
) -> u32
    ensures { With (fault_call (lent_state board.now table.old) domain page) (λ (o : Outcome).
        (result ≡ number_of o.reply)
        × (is_new.new ≡ value_of second_in o.reply)
        × (frame.new ≡ value_of number_in o.reply)
        × (row.new ≡ row_of o.reply)
        × (table.new ≡ o.next.table)) }
{
    let told = ReplyNumbers::from(frames::fault(board_of(board), table, domain, page));
    *is_new = told.second;
    *frame = told.value;
    *row = told.row;
    told.number
}

// The page's frame, which becomes free.
#[unsafe(no_mangle)]
pub extern "C" fn juzvanec_release(
    board: &[u32; 27],
    table: &mut [u16],
    domain: u32,
    page: u32,
    frame: &mut u32,
    row: &mut u32,
) -> u32
    ensures { With (release_call (lent_state board.now table.old) domain page) (λ (o : Outcome).
        (result ≡ number_of o.reply)
        × (frame.new ≡ value_of number_in o.reply)
        × (row.new ≡ row_of o.reply)
        × (table.new ≡ o.next.table)) }
{
    let told = ReplyNumbers::from(frames::release(board_of(board), table, domain, page));
    *frame = told.value;
    *row = told.row;
    told.number
}

// The domain's active set and its quota.
#[unsafe(no_mangle)]
pub extern "C" fn juzvanec_colours(
    board: &[u32; 27],
    table: &[u16],
    domain: u32,
    set: &mut u32,
    quota: &mut u32,
    row: &mut u32,
) -> u32
    ensures { With (colours_call (lent_state board.now table.now) domain) (λ (o : Outcome).
        (result ≡ number_of o.reply)
        × (set.new ≡ value_of number_in o.reply)
        × (quota.new ≡ value_of second_in o.reply)
        × (row.new ≡ row_of o.reply)) }
{
    let told = ReplyNumbers::from(frames::colours(board_of(board), table, domain));
    *set = told.value;
    *quota = told.second;
    *row = told.row;
    told.number
}

// The count of moves; the triples stand in `moves`, in page order. The board's words are written only where the call
// answers: then the domain's active set is the new one.
#[unsafe(no_mangle)]
pub extern "C" fn juzvanec_recolour(
    board: &mut [u32; 27],
    table: &mut [u16],
    domain: u32,
    set: u32,
    moves: &mut [u16],
    count: &mut u32,
    row: &mut u32,
) -> u32
    ensures { With (recolour_call (lent_state board.old table.old) domain set moves.old) (λ (o : Outcome).
        (result ≡ number_of o.reply)
        × (count.new ≡ value_of number_in o.reply)
        × (row.new ≡ row_of o.reply)
        × (board.new ≡ words_left o board.old)
        × (table.new ≡ o.next.table)
        × (moves.new ≡ listed o.moves moves.old)) }
{
    let done = moves::recolour(board_of(board), table, domain, set, moves);
    let told = ReplyNumbers::from(done.answer);
    write_recoloured(board, done.answer, domain, set);
    *count = told.value;
    *row = told.row;
    told.number
}

// The count of moves; the list is only read. The board's words are written only where the call answers: then the
// domain's active set is the former one.
#[unsafe(no_mangle)]
pub extern "C" fn juzvanec_take_back(
    board: &mut [u32; 27],
    table: &mut [u16],
    domain: u32,
    set: u32,
    moves: &[u16],
    count: &mut u32,
    row: &mut u32,
) -> u32
    ensures { With (take_back (lent_state board.old table.old) domain set moves.now) (λ (o : Outcome).
        (result ≡ number_of o.reply)
        × (count.new ≡ value_of number_in o.reply)
        × (row.new ≡ row_of o.reply)
        × (board.new ≡ words_left o board.old)
        × (table.new ≡ o.next.table)) }
{
    let done = taking_back::take_back(board_of(board), table, domain, set, moves);
    let told = ReplyNumbers::from(done.answer);
    write_recoloured(board, done.answer, domain, set);
    *count = told.value;
    *row = told.row;
    told.number
}

// The quota that is now set: one field of the lent board, and on a refusal none changes.
#[unsafe(no_mangle)]
pub extern "C" fn juzvanec_set_quota(
    board: &mut Board,
    table: &[u16],
    domain: u32,
    quota: u32,
    answer: &mut u32,
    row: &mut u32,
) -> u32
    ensures { With (set_quota (state_of board.old table.now) domain quota) (λ (o : Outcome).
        (result ≡ number_of o.reply)
        × (answer.new ≡ value_of number_in o.reply)
        × (row.new ≡ row_of o.reply)
        × (board.new ≡ o.next.board)) }
{
    let told = ReplyNumbers::from(frames::set_quota(board, table, domain, quota));
    *answer = told.value;
    *row = told.row;
    told.number
}
