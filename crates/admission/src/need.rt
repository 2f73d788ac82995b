// The need of a task over the part of its VCPU, and of a VCPU over the rows of its core: document 01,
// the own cost, and for each earlier row the arrivals in t times the charge of one.
ghost use Rattle.std.specs.Prelude.{◌≡◌, ℕ, ◌≤◌, ◌<◌, get_or};
ghost use Rattle.times.specs.Times.{arrivals as arrivals_of, need as need_of};
ghost use Rattle.rows.specs.RowWords.{task_period, vcpu_rows, task_rows};
ghost use Rattle.rows.specs.ValidRows.{Tasks, Vcpus};
ghost use Rattle.admission.specs.EarlierRows.{InRange, row_at, OnCore};

use rows::{TASK_PERIOD, VCPU_BUDGET, VCPU_CORE, VCPU_PERIOD, task_word, vcpu_word};

// t / period, rounded up.
// Kept: `div_ceil` also compares the remainder with 0, in each round two instructions more for each earlier row.
#[tactic(auto, unfolding(times::specs::Times::arrivals))]
fn arrivals(t: u32, period: u32) -> u64
    requires { (t ≤ 1000000) × (1 ≤ period) × (period ≤ 1000000) }
    ensures { result ≡ arrivals_of t period }
{
    ((t + (period - 1)) / period) as u64
}

// The need in t of a row with its own cost, after so many rows. `earlier` gives the period of each of these, and
// what an arrival of it charges.
// Kept: the ranges of `own`, t and periods stand in three contracts; a struct for a number in range would say no less.
fn need<E: Fn(u32) -> (u32, u64)>(own: u32, rows: u32, earlier: E, t: u32) -> u64
    requires ranges { (own ≤ 1000000) × (t ≤ 1000000) × (rows ≤ 32) }
    requires given { (j : ℕ) → j < rows → E.pre earlier j }
    requires in_range { (j : ℕ) (r : _) → j < rows → E.post earlier j r → InRange r.0 r.1 }
    ensures { (period charge : ℕ → ℕ) → ((j : ℕ) (r : _) → j < rows → E.post earlier j r → (r.0 ≡ period j) × (r.1 ≡ charge j)) → result ≡ need_of own period charge rows t }
{
    let mut sum = own as u64;
    for j in 0..rows {
        let (period, charge) = earlier(j);
        sum += arrivals(t, period) * charge;
    }
    sum
}

// The need of row i of a part, with its cost and what an arrival of each row before it charges.
pub(crate) fn task_need(own: u32, part: &[u32], i: u32, charges: &[u64; 32], t: u32) -> u64
    requires { (own ≤ 1000000) × (t ≤ 1000000) × Tasks part.now × (i ≤ task_rows part.now) × ((j : ℕ) → j < i → get_or charges.now j 0 ≤ 1160000) }
    ensures { result ≡ need_of own (task_period part.now) (λ (j : ℕ). get_or charges.now j 0) i t }
{
    need(
        own,
        i,
        |j| (task_word(part, j, TASK_PERIOD), charges[j as usize]),
        t,
    )
}

// A VCPU before one of its core.
#[derive(Clone, Copy, Debug, PartialEq, Eq)]
pub(crate) struct EarlierVcpu {
    pub period: u32,
    pub budget: u32,
}

// The VCPUs of a core before one of them, so many.
// Kept: an array with its count beside, since the library has no heap.
#[derive(Clone, Copy, Debug, PartialEq, Eq)]
pub(crate) struct CoreRows {
    pub count: u32,
    pub rows: [EarlierVcpu; 16],
}

impl CoreRows {
    // The need after them of a VCPU with its budget.
    pub(crate) fn need(&self, own: u32, t: u32) -> u64
        requires { (own ≤ 1000000) × (t ≤ 1000000) × (self.now.count ≤ 16) × ((j : ℕ) → j < self.now.count → InRange (row_at self.now.rows j).period (row_at self.now.rows j).budget) }
        ensures { result ≡ need_of own (λ (j : ℕ). (row_at self.now.rows j).period) (λ (j : ℕ). (row_at self.now.rows j).budget) self.now.count t }
    {
        need(
            own,
            self.count,
            |j| {
                let row = self.rows[j as usize];
                (row.period, row.budget as u64)
            },
            t,
        )
    }
}

// Those before VCPU i on its core. A VCPU of another core charges nothing.
pub(crate) fn core_rows(vcpus: &[u32], i: u32) -> CoreRows
    requires { Vcpus vcpus.now × (i < vcpu_rows vcpus.now) }
    ensures { OnCore vcpus.now i i result.count result.rows }
{
    let core = vcpu_word(vcpus, i, VCPU_CORE);
    let mut rows = [EarlierVcpu {
        period: 0,
        budget: 0,
    }; 16];
    let mut count = 0;
    for j in 0..i {
        if vcpu_word(vcpus, j, VCPU_CORE) == core {
            rows[count as usize] = EarlierVcpu {
                period: vcpu_word(vcpus, j, VCPU_PERIOD),
                budget: vcpu_word(vcpus, j, VCPU_BUDGET),
            };
            count += 1;
        }
    }
    CoreRows { count, rows }
}
