//! A count at its last value.

use thiserror::Error;

/// A count stands at its last value, and one more would pass it. Nothing changed.
#[derive(Debug, Drop, Error)]
#[error("a count is full")]
pub struct CountFull;
