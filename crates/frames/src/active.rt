// Colours: document 01, the active set of a domain, and 02, No. 6, its quota, with refusals 2 to 7, 26 and 8.
ghost use Rattle.std.specs.Prelude.{◌≡◌};
ghost use Rattle.refusal.specs.Numbers.{reply_with};
ghost use Rattle.calls.specs.Table.{state_of};
ghost use Rattle.calls.specs.Calls.{colours as colours_call};
ghost use Rattle.frames.specs.Paper.{paper_active};

use board::Board;
use board_tests::check_call;
use refusal::Refusal;

#[derive(Clone, Copy, Debug, PartialEq, Eq)]
pub struct ActiveColours {
    pub set: u32,
    pub quota: u32,
}

// The domain's active set and its quota.
pub fn colours(board: Board, table: &[u16], domain: u32) -> Result<ActiveColours, Refusal>
    ensures { reply_with paper_active result ≡ (colours_call (state_of board table.now) domain).reply }
{
    check_call(board, table.len(), domain)?;
    Ok(ActiveColours {
        set: board.active_set(domain),
        quota: board.quota(domain),
    })
}
