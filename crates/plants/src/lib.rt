// Plants: tasks on resources under a scheduling policy, one tick at a time.
#![tactic(auto)]

mod bits;
mod candidates;
pub mod draft;
mod entries;
pub mod fixed_list;
pub mod layout;
pub mod logging;
pub mod plant;
mod running;
pub mod schedules;
pub mod state;
mod states;
pub mod system;
mod tick;
