// Why a call is refused, with the number and row that document 01 gives it, and what a row names: "Refusals in the
// order tested". specs/Reply.antt has what a reply is and what it means that the first failing test refuses;
// specs/Numbers.antt has the number and row of each refusal. The other crates' definitions are written with both.
#![tactic(auto)]

ghost use Rattle.std.specs.Prelude.{◌≡◌};
ghost use Rattle.refusal.specs.Numbers.{number_of, row_of};
ghost use Rattle.refusal.specs.Rows.{row_names};

use std::fmt;

// Why a call is refused: docs/REFUSALS.md has the words for each. The numbers are those of domains and rows at fault.
#[derive(Clone, Copy, Debug, PartialEq, Eq)]
pub enum Refusal {
    NotAPlan,
    Colours,
    Frames,
    Domains,
    Grant(u32),
    SharedGrant(u32),
    ActiveSet(u32),
    CallingDomain,
    Set,
    Page,
    OtherColour,
    NoFreeFrame,
    ShortList,
    Unmapped,
    VcpuWords,
    TaskWords,
    VcpuRow(u32),
    TaskRow(u32),
    TaskOrder(u32),
    SharedColour(u32),
    LateVcpu(u32),
    LateTask(u32),
    BoardQuotas,
    Quota,
    AtQuota,
    Triples,
    FramesOutside,
}

impl Refusal {
    // Its number, which a caller in C is told.
    pub fn number(self) -> u32
        ensures { result ≡ number_of self }
    {
        match self {
            Refusal::NotAPlan => 1,
            Refusal::Colours => 2,
            Refusal::Frames => 3,
            Refusal::Domains => 4,
            Refusal::Grant(_) => 5,
            Refusal::SharedGrant(_) => 6,
            Refusal::ActiveSet(_) => 7,
            Refusal::CallingDomain => 8,
            Refusal::Set => 9,
            Refusal::Page => 10,
            Refusal::OtherColour => 11,
            Refusal::NoFreeFrame => 12,
            Refusal::ShortList => 13,
            Refusal::Unmapped => 14,
            Refusal::VcpuWords => 15,
            Refusal::TaskWords => 16,
            Refusal::VcpuRow(_) => 17,
            Refusal::TaskRow(_) => 18,
            Refusal::TaskOrder(_) => 19,
            Refusal::SharedColour(_) => 20,
            Refusal::LateVcpu(_) => 21,
            Refusal::LateTask(_) => 22,
            Refusal::BoardQuotas => 26,
            Refusal::Quota => 27,
            Refusal::AtQuota => 28,
            Refusal::Triples => 31,
            Refusal::FramesOutside => 32,
        }
    }

    // The domain or row at fault, 0 where it names none.
    // Kept: 0 and no Option, as document 01 has the row of such a refusal, and a caller in C is told it.
    pub fn row(self) -> u32
        ensures { result ≡ row_of self }
    {
        match self {
            Refusal::Grant(domain) | Refusal::SharedGrant(domain) | Refusal::ActiveSet(domain) =>
                domain,
            Refusal::VcpuRow(row)
            | Refusal::TaskRow(row)
            | Refusal::TaskOrder(row)
            | Refusal::SharedColour(row)
            | Refusal::LateVcpu(row)
            | Refusal::LateTask(row) => row,
            _ => 0,
        }
    }
}

// As `admit` prints it.
impl fmt::Display for Refusal {
    ghost use Rattle.std.specs.Prelude.{Some};
    ghost use Rattle.refusal.specs.Printed.{refusal_text};

    ghost output = { λ refusal. Some (refusal_text refusal) };

    fn fmt<W: fmt::Write>(&self, f: &mut fmt::Formatter<W>) -> fmt::Result {
        write!(f, "refused {} {}", self.number(), self.row())
    }
}

// What the row of a refusal counts.
#[derive(Clone, Copy, Debug, PartialEq, Eq)]
pub enum RowNames {
    Domain,
    PlanRow,
    Nothing,
}

// Kept: by the number, as docs/guide/rattle.md names the call; it answers for every number.
#[tactic(auto, unfolding(crate::specs::Rows::row_names))]
pub fn row_names(number: u32) -> RowNames
    ensures { result ≡ row_names number }
{
    match number {
        5..=7 => RowNames::Domain,
        17..=22 => RowNames::PlanRow,
        _ => RowNames::Nothing,
    }
}
