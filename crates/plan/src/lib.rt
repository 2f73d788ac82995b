// Refusals 15 to 20 of a plan: document 01, "Plans". The rows and the part of a VCPU are in `rows`.
#![tactic(auto)]

mod check;
mod fields;

pub use check::check_plan;
