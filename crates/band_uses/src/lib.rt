//! The callers that the documents show, each proved from the public contracts alone.
#![tactic(auto)]

pub mod cells;
pub mod channels;
pub mod conditions;
pub mod counter;
pub mod devices;
pub mod ids;
pub mod lines;
pub mod locks;
pub mod parts;
pub mod places;
pub mod promises;
pub mod refusals;
pub mod scripts;
pub mod semaphores;
pub mod signals;
pub mod stops;
pub mod waiters;
pub mod wakers;
