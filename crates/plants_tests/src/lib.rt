// Tests of plants and policies on examples.
#![tactic(auto)]

#[cfg(test)]
mod entries;
#[cfg(test)]
mod policies_on_claims;
#[cfg(test)]
mod ticks;
