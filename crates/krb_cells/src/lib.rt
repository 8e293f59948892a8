//! Stores whose cells follow one another in bytes. A format returns the first cell of some bytes (`CellFormat`);
//! iterating the cells, the calls of a store (`Cells`) and where a rewrite carries cursors (`carry_to`) follow from
//! that, once for all formats.
#![tactic(auto)]

mod carry;
mod cells;

pub use carry::{carry_to, part};
pub use cells::{CellFormat, CellView, Cells};
