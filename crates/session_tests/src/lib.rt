// Tests of charts, sessions and judging at their limits.
#![tactic(auto)]

#[cfg(test)]
mod chart_tests;
pub mod ring;
#[cfg(test)]
mod session_tests;
