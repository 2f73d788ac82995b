// Refusals 5 to 7: the lowest domain below the count whose grant or active set is at fault, one number after the
// other. A board with nothing at fault, as that of nearly every call, is gone over once.
ghost use Rattle.std.specs.Prelude.{◌≡◌, true, ◌≤◌};
ghost use Rattle.refusal.specs.Reply.{Answers, unless};
ghost use Rattle.refusal.specs.Numbers.{reply_of};
ghost use Rattle.board.specs.Tests.{bad_grant, shares_with_another, bad_active, domain_tests};

use board::{Board, empty_or_outside};
use colours::is_colour_set;
use refusal::Refusal;

pub(crate) fn check_domains(board: &Board) -> Result<(), Refusal>
    requires { board.now.domains ≤ 8 }
    ensures { reply_of result ≡ unless (domain_tests board.now) tt }
{
    if in_order(board) {
        return Ok(());
    }
    first_fault(board)
}

// Whether no domain is at fault. `seen` is the union of the grants so far: a grant that shares no bit
// with it shares none with any of them, and has no bit at N or above where the union has none.
fn in_order(board: &Board) -> bool
    requires { board.now.domains ≤ 8 }
    ensures { result ≡ true → Answers tt ≡ unless {A = Unit {0}} (domain_tests board.now) tt }
{
    let mut seen: u32 = 0;
    for d in 0..board.domains as usize {
        let grant = board.grants[d];
        let set = board.active[d];
        if set == 0 || set - (set & grant) != 0 || grant & seen != 0 {
            return false;
        }
        seen |= grant;
    }
    is_colour_set(board.colours, seen)
}

fn first_fault(board: &Board) -> Result<(), Refusal>
    ensures { reply_of result ≡ unless (domain_tests board.now) tt }
{
    if let Some(domain) = (0..board.domains).find(|&d| bad_grant(board, d)) {
        return Err(Refusal::Grant(domain));
    }
    if let Some(domain) = (0..board.domains).find(|&d| shares_with_another(board, d)) {
        return Err(Refusal::SharedGrant(domain));
    }
    if let Some(domain) = (0..board.domains).find(|&d| bad_active(board, d)) {
        return Err(Refusal::ActiveSet(domain));
    }
    Ok(())
}

// Kept: a board and a domain as two arguments: `find` goes along the domains of one board.

// 5: whether a domain's grant is 0 or has a bit at N or above.
fn bad_grant(board: &Board, d: u32) -> bool
    ensures { result ≡ bad_grant board.now d }
{
    !is_colour_set(board.colours, board.grant(d))
}

// 6: whether it shares a bit with another's.
fn shares_with_another(board: &Board, d: u32) -> bool
    ensures { result ≡ shares_with_another board.now d }
{
    (0..board.domains).any(|e| e != d && board.grant(d) & board.grant(e) != 0)
}

// 7: whether its active set is 0 or has a bit outside its grant.
fn bad_active(board: &Board, d: u32) -> bool
    ensures { result ≡ bad_active board.now d }
{
    empty_or_outside(board.grant(d), board.active_set(d))
}
