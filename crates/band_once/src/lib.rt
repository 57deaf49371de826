//! Cells that are filled once, by a state of the caller that is polled while its call holds the cell's one permit.
#![tactic(auto)]

mod attempt;
mod call;
#[cfg(test)]
mod callers;
mod cell_init;
mod cell_insert;
mod cell_mut;
mod cell_try_init;
pub mod laws;
mod lazy_cell;
mod once;
mod once_cell;
#[cfg(test)]
mod plan;
#[cfg(test)]
mod tests;
mod value_cell;

pub use cell_init::CellInit;
pub use cell_insert::CellInsert;
pub use cell_mut::{CellInitMut, CellTryInitMut};
pub use cell_try_init::CellTryInit;
pub use lazy_cell::{Force, ForceMut, LazyCell};
pub use once::{Once, OnceCall, OnceWait};
pub use once_cell::OnceCell;
pub use value_cell::ValueCell;
