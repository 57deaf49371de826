//! The language of scripts: names, calls, and the lines that stand for them.
#![tactic(auto)]

mod call;
mod form;
mod grammar;
mod name;
mod number;
mod operands;
mod text;
mod words;

pub use call::Call;
pub use grammar::{decodes_exactly, longest_line, one_call, parse_line, worked_lines};
pub use name::Name;

#[cfg(test)]
mod tests;
