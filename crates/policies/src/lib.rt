// Policies: which of two ready tasks on a resource goes first, and the priorities of the classes.
#![tactic(auto)]

pub mod classes;
pub mod orders;
pub mod policy;
pub mod site;
