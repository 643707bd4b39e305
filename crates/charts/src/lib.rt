// Sequence charts: steps, some of them forbidden, and where each input leads from each step.
#![tactic(auto)]

pub mod chart;
pub mod draft;
pub mod entries;
