// Matrices over any field, in slices that a caller lends: their product, their inverse, and what they make of cells of bytes.
#![tactic(auto)]

mod action;
mod cells;
mod elimination;
mod fault;
mod grid;
mod inversion;
mod product;
mod rows;
mod shape;

pub use action::act_on_cells;
pub use fault::{MatrixFault, Sides};
pub use grid::Matrix;
pub use inversion::invert;
pub use product::multiply;
