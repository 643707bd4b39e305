// The log of an input: one answer for each of its lines.
#![tactic(auto)]

mod drafting;
pub mod log;
mod numbers;
mod opening;
mod progress;
mod serving;
