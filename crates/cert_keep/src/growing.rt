//! A marked tree, built from its lines.
ghost use Rattle.std.specs.Prelude.{◌≡◌, ◌≤◌, OnOk, length};
ghost use Rattle.mill_model.specs.declared.mark.Mark.TheVariants as marks;
ghost use Rattle.mill_model.specs.Trees.{step_of};
ghost use Rattle.cert_keep.specs.Building.{add_leaf, add_new_share, add_old_share, add_question, add_share, begun_spread, orders16, seedling, tree_of};
ghost use Rattle.cert_keep.specs.Next.{mark_of};

use crate::numbers::{copy_numbers, index16, list_orders, natural16, read_prices};
use cert_view::Nums;
use mill_model::{Ask, Kind, Mark, Share, Shown, Step, Steps};
use std::alloc::{AllocError, Global};
use std::marker::Model;

/// The mark of the next question, as far as it was read.
#[derive(Drop)]
pub enum Next {
    /// None was read, or it claims nothing.
    Plain,
    /// Neither prices nor a cover were found.
    Bare,
    /// A cover: its denominator, and its shares so far.
    Spread(i64, Vec<Share>),
}

/// The steps and the marks of a tree so far, and the mark of its next question.
#[derive(Drop)]
pub(crate) struct Growing {
    steps: Vec<Step>,
    marks: Vec<Mark>,
    next: Next,
}

impl Model for Growing {
    ghost use Rattle.mill_model.specs.Marks.{HasOneMarkEach};
    ghost use Rattle.cert_keep.specs.Building.{Growing};
    ghost use Rattle.cert_keep.specs.Next.{mark_of};

    ghost Value = { Growing };

    ghost view = { λ g. record { steps = g.steps.items; marks = g.marks.items; next = mark_of g.next } };

    ghost invariant = { λ g. HasOneMarkEach (record { steps = g.steps.items; marks = g.marks.items }) };
}

impl Growing {
    // No step.
    pub(crate) fn new(alloc: Global) -> Growing
        ensures { result ≡ seedling }
    {
        Growing {
            steps: Vec::new(alloc),
            marks: Vec::new(alloc),
            next: Next::Plain,
        }
    }

    // A leaf, in a mill with so many orders.
    pub(crate) fn leaf(
        &mut self,
        alloc: Global,
        orders: usize,
        numbers: &Nums<'_>,
    ) -> Result<(), AllocError>
        requires { 2 ≤ length numbers.now }
        ensures { OnOk result (self.new ≡ add_leaf orders self.old numbers.now) }
    {
        let prices = read_prices(alloc, orders, numbers)?;
        self.steps.push(Step::Leaf(prices))?;
        Ok(())
    }

    // A question, with the mark that was read.
    pub(crate) fn question(&mut self, ask: Ask) -> Result<(), AllocError>
        ensures { OnOk result (self.new ≡ add_question self.old ask) }
    {
        self.steps.reserve(1)?;
        let mark = into_mark(std::mem::replace(&mut self.next, Next::Plain));
        self.marks.push(mark)?;
        self.steps.push_reserved(step_of(ask));
        Ok(())
    }

    // The mark of the next question claims nothing.
    pub(crate) fn plain(&mut self)
        ensures { self.new ≡ record self.old { next = marks.Plain } }
    {
        self.next = Next::Plain;
    }

    // The next question was asked since nothing was found.
    pub(crate) fn bare(&mut self)
        ensures { self.new ≡ record self.old { next = marks.Bare } }
    {
        self.next = Next::Bare;
    }

    // The cover of the next question begins.
    pub(crate) fn spread(&mut self, alloc: Global, numbers: &Nums<'_>)
        requires { length numbers.now ≡ 1 }
        ensures { self.new ≡ record self.old { next = begun_spread numbers.now } }
    {
        self.next = Next::Spread(numbers.get(0), Vec::new(alloc));
    }

    // A share on a new slab.
    pub(crate) fn new_share(&mut self, alloc: Global, numbers: &Nums<'_>) -> Result<(), AllocError>
        ensures { OnOk result
            (self.new ≡ record self.old { next = add_new_share self.old.next numbers.now }) }
    {
        let numbers = copy_numbers(alloc, numbers)?;
        match numbers.as_slice() {
            [] => Ok(()),
            [_] => Ok(()),
            [times, size, orders @ ..] => {
                self.share(alloc, *times, Kind::New(natural16(*size)), orders)
            }
        }
    }

    // A share on a surplus slab.
    pub(crate) fn old_share(&mut self, alloc: Global, numbers: &Nums<'_>) -> Result<(), AllocError>
        ensures { OnOk result
            (self.new ≡ record self.old { next = add_old_share self.old.next numbers.now }) }
    {
        let numbers = copy_numbers(alloc, numbers)?;
        match numbers.as_slice() {
            [] => Ok(()),
            [_] => Ok(()),
            [times, slab, orders @ ..] => {
                self.share(alloc, *times, Kind::Old(index16(*slab)), orders)
            }
        }
    }

    // One share more.
    fn share(
        &mut self,
        alloc: Global,
        times: i64,
        kind: Kind,
        orders: &[i64],
    ) -> Result<(), AllocError>
        ensures { OnOk result (self.new ≡ record self.old {
          next = add_share self.old.next
              (record { times = times; kind = kind; orders = orders16 orders.now });
        }) }
    {
        let orders = list_orders(alloc, orders)?;
        add_share(&mut self.next, Share::new(times, kind, orders))
    }

    // The tree.
    pub(crate) fn into_steps(self) -> Steps
        ensures { result ≡ tree_of self }
    {
        Steps::new(self.steps, self.marks)
    }
}

// One share more, where a cover is read.
fn add_share(next: &mut Next, share: Share) -> Result<(), AllocError>
    ensures { OnOk result (mark_of next.new ≡ add_share (mark_of next.old) share) }
{
    match std::mem::replace(next, Next::Plain) {
        Next::Plain => Ok(()),
        Next::Bare => {
            *next = Next::Bare;
            Ok(())
        }
        Next::Spread(d, mut shares) => {
            shares.push(share)?;
            *next = Next::Spread(d, shares);
            Ok(())
        }
    }
}

// The mark.
fn into_mark(next: Next) -> Mark
    ensures { result ≡ mark_of next }
{
    match next {
        Next::Plain => Mark::Plain,
        Next::Bare => Mark::Bare,
        Next::Spread(d, shares) => Mark::Spread(Shown::new(d, shares)),
    }
}

// The step of a question.
fn step_of(ask: Ask) -> Step
    ensures { result ≡ step_of ask }
{
    match ask {
        Ask::Pair(i, j) => Step::Pair(i, j),
        Ask::Put(o, s) => Step::Put(o, s),
    }
}
