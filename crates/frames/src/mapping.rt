// Look, fault and release: document 01, the frame of a domain's page, with refusals 2 to 8, 26, 10, 12
// and 14; of a fault also document 02, Nos. 2, 6 and 7, with 28.
ghost use Rattle.std.specs.Prelude.{◌≡◌};
ghost use Rattle.refusal.specs.Numbers.{reply_of, reply_with};
ghost use Rattle.calls.specs.Table.{state_of};
ghost use Rattle.calls.specs.Calls.{Freed, look as look_call, fault as fault_call, release as release_call};
ghost use Rattle.frames.specs.Paper.{paper_looked, paper_faulted};
ghost use Rattle.frames.specs.Steps.{page_reply};

use board::Board;
use board_tests::check_call;
use choice::{choose, sum_all};
use limits::LAST_PAGE;
use pass::go_over;
use refusal::Refusal;
use table_words::{lowest_word, word_for};

// The frame that a page has, or that it gets.
#[derive(Clone, Copy, Debug, PartialEq, Eq)]
pub enum Faulted {
    Old(u32),
    New(u32),
}

// Refusals 2 to 8, 26 and 10.
fn check_page(board: Board, words: usize, domain: u32, page: u32) -> Result<(), Refusal>
    ensures { reply_of result ≡ page_reply board words domain page }
{
    check_call(board, words, domain)?;
    if LAST_PAGE < page {
        return Err(Refusal::Page);
    }
    Ok(())
}

// The lowest frame with the domain's word for the page, if there is one.
pub fn look(board: Board, table: &[u16], domain: u32, page: u32) -> Result<Option<u32>, Refusal>
    ensures { reply_with paper_looked result ≡ (look_call (state_of board table.now) domain page).reply }
{
    check_page(board, table.len(), domain, page)?;
    match lowest_word(table, word_for(domain, page)) {
        Some(frame) => Ok(Some(frame as u32)),
        None => Ok(None),
    }
}

// The frame of the page, old or new: the one pass over the table, and where the page has no frame the word to
// the one that the domain takes next, unless it is at its quota.
pub fn fault(board: Board, table: &mut [u16], domain: u32, page: u32) -> Result<Faulted, Refusal>
    ensures result_value { reply_with paper_faulted result ≡ (fault_call (state_of board table.old) domain page).reply }
    ensures table_after { table.new ≡ (fault_call (state_of board table.old) domain page).next.table }
{
    check_page(board, table.len(), domain, page)?;
    let word = word_for(domain, page);
    let first = word_for(domain, 0);
    let tally = go_over(table, word, first);
    if 0 < tally.mapped {
        return Ok(Faulted::Old((tally.mapped - 1) as u32));
    }
    let held = tally.held;
    let colours = board.colours as usize;
    if board.quota(domain) as usize <= sum_all(held, colours) {
        return Err(Refusal::AtQuota);
    }
    let set = board.active_set(domain);
    let Some(frame) = choose(held, tally.free, colours, set, table.len()) else {
        return Err(Refusal::NoFreeFrame);
    };
    table[frame] = word;
    Ok(Faulted::New(frame as u32))
}

// The frame that look finds becomes free. It is found here and not by calling look, so that each is compiled
// into the one function that calls it, and a board is copied once less.
pub fn release(board: Board, table: &mut [u16], domain: u32, page: u32) -> Result<u32, Refusal>
    ensures result_value { reply_with Freed result ≡ (release_call (state_of board table.old) domain page).reply }
    ensures table_after { table.new ≡ (release_call (state_of board table.old) domain page).next.table }
{
    check_page(board, table.len(), domain, page)?;
    let Some(frame) = lowest_word(table, word_for(domain, page)) else {
        return Err(Refusal::Unmapped);
    };
    table[frame] = 0;
    Ok(frame as u32)
}
