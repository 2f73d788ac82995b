// The least supply of a periodic resource: document 01, "Plans" (Shin and Lee 2003). The function is
// total; its numbers mean something for a period of 1 or more and a budget of 1 up to the period.
#![tactic(auto)]

ghost use Rattle.std.specs.Prelude.{◌≡◌};
ghost use Rattle.supply.specs.Supply.{supply};

// The least that a resource with this period and budget gives in any t microseconds.
#[tactic(auto, unfolding(crate::specs::Supply::supply))]
pub fn least(period: u32, budget: u32, t: u32) -> u64
    ensures { result ≡ supply period budget t }
{
    let gap = period.saturating_sub(budget);
    let u = t.saturating_sub(gap);
    if period == 0 {
        return u as u64;
    }
    let whole = (u / period) as u64 * (budget as u64);
    whole + (u % period).saturating_sub(gap) as u64
}
