//! A mill with all that is asked about it.
ghost use Rattle.slab_price.specs.Excess.{IsAsked};

use loss_table::LossTable;
use mill_model::{Mill, Prices};
use slab_decide::Decisions;

// A mill with all that is asked about it.
#[derive(Clone, Copy)]
pub(crate) struct Task<'a> {
    pub mill: &'a Mill,
    pub table: &'a LossTable,
    pub decisions: &'a Decisions,
    pub prices: &'a Prices,
    ghost asked: { IsAsked mill.now table.now decisions.now prices.now },
}
