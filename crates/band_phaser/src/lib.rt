//! A phaser: phases that end once all that are registered have arrived.
#![tactic(auto)]

mod closed;
pub mod laws;
mod participant;
mod participants;
mod phaser;
mod phaser_wait;
#[cfg(test)]
mod tests;

pub use closed::{Closed, PhaserError};
pub use participant::{ParticipantWait, PhaserParticipant};
pub use participants::PhaserParticipants;
pub use phaser::Phaser;
pub use phaser_wait::PhaserWait;
