//! Why a call on a phaser was refused.

use thiserror::Error;

/// The phaser is closed.
#[derive(Debug, Clone, Copy, PartialEq, Eq, Error)]
#[error("Phaser is closed")]
pub struct Closed;

/// Why nobody was registered. Nothing changed.
#[derive(Debug, Drop, Error)]
pub enum PhaserError {
    /// The phaser is closed.
    #[error("Phaser is closed")]
    Closed,
    /// The count of those registered would pass its last value.
    #[error("a count is full")]
    CountFull,
}
