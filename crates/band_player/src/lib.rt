//! The player of scripts: calls on named objects, one after another. The language and the rules stand below it.
#![tactic(auto)]

mod boxed_token;
mod names;
mod object;
mod player;
mod table;
mod token;

pub use band_rules::Reply;
pub use band_script::{Call, Name};
pub use player::Player;

#[cfg(test)]
mod tests;
