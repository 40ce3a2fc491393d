//! The search for a basis: a simplex over the inverse of the basis, whose rows are the working rows. It claims nothing of
//! what it finds, since whoever reads an answer off it tests that answer in whole numbers; its contracts say only that a
//! count rose where a number left its range. So it can be changed alone. Its modules read in this order: `whole_row`, a
//! working row and the steps on it; `basic`, what may stand in a basis; `entering` and `leaving`, the choice of a pivot;
//! `basis`, the state of the search and its steps; `reading`, what its end shows.

mod basic;
mod basis;
mod entering;
mod leaving;
mod reading;
mod whole_row;

pub(crate) use basis::{Basis, Step};
pub(crate) use whole_row::WholeRow;
