//! What no clause says: that the definitions mean what a channel is to do, that calls succeed, and the texts of the errors.

mod calls;
mod core_calls;
mod errors;
mod interleavings;
mod rows;
mod state;
mod threads;
