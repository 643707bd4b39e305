// Lines: reading them from bytes, writing them into a buffer, and systems whose states are lines.
#![tactic(auto)]

mod column;
mod form;
pub mod line;
pub mod loggable;
pub mod reader;
pub mod tag;
#[cfg(test)]
mod tests;
pub mod write;
