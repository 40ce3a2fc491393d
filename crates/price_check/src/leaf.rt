//! A leaf: a mill with the decisions and the prices there.
ghost use Rattle.price_check.specs.Asked.{IsAsked};

use crate::quote::Quote;
use crate::trail::Trail;
use mill_model::Mill;

// A mill with the decisions down to a leaf and its prices.
#[derive(Clone, Copy)]
pub(crate) struct Leaf<'a> {
    pub mill: &'a Mill,
    pub trail: &'a Trail,
    pub quote: &'a Quote,
    ghost asked: { IsAsked mill.now quote.now },
}
