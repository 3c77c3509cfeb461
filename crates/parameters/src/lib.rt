//! The report on a file of parameters: what two systems hold for each, compared by value.
#![tactic(auto)]

mod finding;
mod reporting;
mod rows;
mod tally;

pub use reporting::report;
