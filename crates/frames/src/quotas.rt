// The quota of a domain: document 02, No. 6, with refusals 2 to 8, 26 and 27. set_quota changes the lent board in
// its own place; what it answers and the quotas that it leaves come from ask_quota, which takes the board by value.
ghost use Rattle.std.specs.Prelude.{◌≡◌, ◌<◌, set};
ghost use Rattle.refusal.specs.Numbers.{reply_of, reply_with};
ghost use Rattle.calls.specs.Table.{state_of};
ghost use Rattle.calls.specs.Calls.{Quota, set_quota};
ghost use Rattle.frames.specs.Steps.{quota_reply};

use board::{Board, no_quota};
use board_tests::check_call;
use pass::count_own;
use refusal::Refusal;
use table_words::word_for;

// The board's quotas afterwards, and the quota that is now set.
// Kept: the quotas beside the answer, since the call takes the board by value (docs/DECISIONS.md).
#[derive(Clone, Copy, Debug, PartialEq, Eq)]
pub struct Asked {
    pub quotas: [u32; 8],
    pub answer: Result<u32, Refusal>,
}

fn with_quota(quotas: [u32; 8], domain: u32, quota: u32) -> [u32; 8]
    requires { domain < 8 }
    ensures { result ≡ set quotas domain quota }
{
    let mut next = quotas;
    next[domain as usize] = quota;
    next
}

// Refusals 2 to 8, 26 and 27. The frames held are counted in one pass over the table, where the rest passes.
fn check_quota(board: Board, table: &[u16], domain: u32, quota: u32) -> Result<(), Refusal>
    ensures { reply_of result ≡ quota_reply (state_of board table.now) domain quota }
{
    check_call(board, table.len(), domain)?;
    if no_quota(quota) || quota < u32::from(count_own(table, word_for(domain, 0))) {
        return Err(Refusal::Quota);
    }
    Ok(())
}

// What a domain that asks for a quota is answered. A refusal leaves the quotas as they were.
pub fn ask_quota(board: Board, table: &[u16], domain: u32, quota: u32) -> Asked
    ensures answer_value { reply_with Quota result.answer ≡ (set_quota (state_of board table.now) domain quota).reply }
    ensures quotas_value { result.quotas ≡ (set_quota (state_of board table.now) domain quota).next.board.quotas }
{
    let quotas = board.quotas;
    match check_quota(board, table, domain, quota) {
        Ok(()) => Asked {
            quotas: with_quota(quotas, domain, quota),
            answer: Ok(quota),
        },
        Err(refusal) => Asked {
            quotas,
            answer: Err(refusal),
        },
    }
}

// The domain's quota is the one asked for: one field of the lent board changes, and on a refusal none.
pub fn set_quota(board: &mut Board, table: &[u16], domain: u32, quota: u32) -> Result<u32, Refusal>
    ensures result_value { reply_with Quota result ≡ (set_quota (state_of board.old table.now) domain quota).reply }
    ensures board_after { board.new ≡ (set_quota (state_of board.old table.now) domain quota).next.board }
{
    let asked = ask_quota(*board, table, domain, quota);
    let quotas = asked.quotas;
    board.quotas = quotas;
    asked.answer
}
