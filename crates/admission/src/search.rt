// The search for a time by rounds: from t, 1 at first, to the first microsecond whose supply covers the
// need in t, until that is t itself, or none up to the bound is left. Document 02, No. 9 counts the rounds.
ghost use Rattle.std.specs.Prelude.{◌≡◌, ℕ, ◌≤◌, ◌<◌};
ghost use Rattle.supply.specs.Supply.{first_supply, Budget};
ghost use Rattle.times.specs.Times.{time_in_part, vcpu_time as vcpu_time_of};
ghost use Rattle.times.specs.Rounds.{rounds_in_part, vcpu_rounds};
ghost use Rattle.rows.specs.RowWords.{vcpu_rows, task_rows};
ghost use Rattle.rows.specs.ValidRows.{Tasks, Vcpus};
ghost use Rattle.admission.specs.Paper.{paper_found};
ghost use Rattle.admission.specs.Searches.{Met, Searched};

use crate::need::{core_rows, task_need};
use rows::{TASK_DEADLINE, VCPU_BUDGET, VCPU_PERIOD, charges, cost, task_word, vcpu_word};

// The time that a search found, none where the row is late, and the rounds that it took, with the one that
// ended it.
#[derive(Clone, Copy, Debug, PartialEq, Eq)]
pub(crate) struct Search {
    pub found: Option<u32>,
    pub rounds: u32,
}

// The search up to a bound, by the need in t and the first microsecond in which so much has been supplied. A
// need above the bound is late before it is inverted, since no supply exceeds its time.
fn by_rounds<N: Fn(u32) -> u64, F: Fn(u32) -> u64>(due: u64, needed: N, first: F) -> Search
    requires in_range { due ≤ 1000000 }
    requires asks_need { (t : ℕ) → 1 ≤ t → t ≤ due → N.pre needed t }
    requires asks_first { (x : ℕ) → 1 ≤ x → x ≤ due → F.pre first x }
    requires some { (t n : ℕ) → 1 ≤ t → t ≤ due → N.post needed t n → 1 ≤ n }
    ensures { (supply need least : ℕ → ℕ) → Met supply need least → ((t n : ℕ) → t ≤ due → N.post needed t n → n ≡ need t) → ((x s : ℕ) → x ≤ due → F.post first x s → s ≡ least x) → Searched supply need due result }
{
    let mut t: u64 = 1;
    let mut rounds: u32 = 0;
    while t <= due {
        rounds += 1;
        let need = needed(t as u32);
        if due < need {
            return Search {
                found: None,
                rounds,
            };
        }
        let next = first(need as u32);
        if next <= t {
            return Search {
                found: Some(t as u32),
                rounds,
            };
        }
        t = next;
    }
    Search {
        found: None,
        rounds,
    }
}

// Kept: period and budget as two arguments, as docs/guide/rattle.md and the definitions take them.
// The first microsecond in which a resource has supplied x.
#[tactic(auto, unfolding(supply::specs::Supply::first_supply))]
fn first_supply(period: u32, budget: u32, x: u32) -> u64
    requires { Budget period budget × (period ≤ 1000000) × (1 ≤ x) × (x ≤ 1000000) }
    ensures { result ≡ first_supply period budget x }
{
    let gaps = 2 * (period - budget);
    let whole = (x - 1) / budget;
    let rest = (x - 1) % budget;
    gaps as u64 + whole as u64 * (period as u64) + rest as u64 + 1
}

// The time of row i of a part under its VCPU's period and budget. What the rows before it charge is worked
// out once.
pub(crate) fn time_in_part(period: u32, budget: u32, reload: u32, part: &[u32], i: u32) -> Search
    requires { Budget period budget × (period ≤ 1000000) × (reload ≤ 10000) × Tasks part.now × (i < task_rows part.now) }
    ensures found_value { paper_found result.found ≡ time_in_part period budget reload part.now i }
    ensures rounds_value { result.rounds ≡ rounds_in_part period budget reload part.now i }
{
    let own = cost(part, i);
    let charged = charges(reload, part, i);
    by_rounds(
        task_word(part, i, TASK_DEADLINE) as u64,
        |t| task_need(own, part, i, &charged, t),
        |x| first_supply(period, budget, x),
    )
}

// The time of a VCPU: its supply in t is t.
#[tactic(auto, using(crate::proofs::CoreVcpus::in_range))]
pub(crate) fn vcpu_time(vcpus: &[u32], i: u32) -> Search
    requires { Vcpus vcpus.now × (i < vcpu_rows vcpus.now) }
    ensures found_value { paper_found result.found ≡ vcpu_time_of vcpus.now i }
    ensures rounds_value { result.rounds ≡ vcpu_rounds vcpus.now i }
{
    let own = vcpu_word(vcpus, i, VCPU_BUDGET);
    let kept = core_rows(vcpus, i);
    by_rounds(
        vcpu_word(vcpus, i, VCPU_PERIOD) as u64,
        |t| kept.need(own, t),
        |x| x as u64,
    )
}
