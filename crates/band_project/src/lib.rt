//! Parts of values: which part of a value is shown, and what a write to it leaves.
#![tactic(auto)]

mod project;
#[cfg(test)]
mod tests;
mod then;
mod whole;

pub use project::{Project, TotalProject};
pub use then::Then;
pub use whole::Whole;
