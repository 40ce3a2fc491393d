//! From the load of a slab to the least slab size of the mill that holds it. Read `loss_table`, then `least_size`.
#![tactic(auto)]

mod least_size;
mod loss_table;

pub use loss_table::LossTable;
