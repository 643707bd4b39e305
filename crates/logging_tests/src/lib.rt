// Tests of charts and plants whose states are written as lines.
#![tactic(auto)]

#[cfg(test)]
mod states;
