// Systems of states and choices, the outcomes of every call, and the judging of runs.
#![tactic(auto)]

pub mod judge;
pub mod outcome;
pub mod system;
