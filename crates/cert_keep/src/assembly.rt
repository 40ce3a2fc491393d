//! A certificate, built from its lines one after another.
ghost use Rattle.std.specs.Prelude.{◌≡◌, ℕ, List, [], None, OnOk, Some, length};
ghost use Rattle.mill_model.specs.Mill.{Mill};
ghost use Rattle.cert_view.specs.Text.{IsLine};
ghost use Rattle.cert_rules.specs.States.Wanted.{All};
ghost use Rattle.cert_keep.specs.Building.{add_ask, add_new, add_old, add_open_to, add_to_current, build, built_sums, closed, empty_plan, nothing_built};
ghost use Rattle.cert_keep.specs.Gathering.{IsBuiltFrom, IsSpelledWhole};
ghost use Rattle.cert_keep.specs.Reads.{IsCertRead};

use crate::CertRead;
use crate::growing::Growing;
use crate::numbers::{
    copy_numbers, index16, list_orders, natural16, read_pair, read_put, read_sums,
};
use crate::outline::Outline;
use crate::placing::Placing;
use cert_view::{Line, Nums};
use mill_model::{Ask, Front, Head, Kind, Proved, Steps, Version};
use std::alloc::{AllocError, Global};
use std::marker::Model;

/// What was read of a certificate: its finished points, the point and the tree that are read, and after `cut` the outline.
#[derive(Drop)]
pub(crate) struct Assembly {
    version: Version,
    points: Vec<Proved>,
    current: Option<Placing>,
    tree: Growing,
    outline: Option<Outline>,
}

impl Model for Assembly {
    ghost use Rattle.cert_keep.specs.Building.{Built};

    ghost Value = { Built };

    ghost view = { λ a. record { version = a.version; points = a.points.items; current = a.current; tree = a.tree; outline = a.outline } };
}

impl Assembly {
    // Nothing.
    pub(crate) fn new(alloc: Global) -> Assembly
        ensures { result ≡ nothing_built }
    {
        Assembly {
            version: Version::One,
            points: Vec::new(alloc),
            current: None,
            tree: Growing::new(alloc),
            outline: None,
        }
    }

    // One line more, of a mill with so many orders.
    pub(crate) fn add(
        &mut self,
        alloc: Global,
        orders: usize,
        line: &Line<'_>,
    ) -> Result<(), AllocError>
        requires { IsLine line.now }
        ensures { OnOk result (self.new ≡ build orders self.old line.now) }
    {
        match line {
            Line::Header => {
                self.version = Version::One;
                Ok(())
            }
            Line::Header2 => {
                self.version = Version::Two;
                Ok(())
            }
            Line::Point(numbers) => self.point(alloc, orders, numbers),
            Line::New(numbers) => self.new_slab(alloc, numbers),
            Line::Old(numbers) => self.old_slab(alloc, numbers),
            Line::Pair(numbers) => self.ask(read_pair(numbers)),
            Line::Put(numbers) => self.ask(read_put(numbers)),
            Line::Leaf(numbers) => self.tree.leaf(alloc, orders, numbers),
            Line::Done => self.close(alloc),
            Line::Cut => self.cut(alloc),
            Line::Open => self.open_end(),
            Line::Bare => {
                self.tree.bare();
                Ok(())
            }
            Line::Plain => {
                self.tree.plain();
                Ok(())
            }
            Line::Spread(numbers) => {
                self.tree.spread(alloc, numbers);
                Ok(())
            }
            Line::CNew(numbers) => self.tree.new_share(alloc, numbers),
            Line::COld(numbers) => self.tree.old_share(alloc, numbers),
        }
    }

    // The point that is read is finished.
    fn close(&mut self, alloc: Global) -> Result<(), AllocError>
        ensures { OnOk result (self.new ≡ closed self.old) }
    {
        let tree = std::mem::replace(&mut self.tree, Growing::new(alloc));
        match std::mem::replace(&mut self.current, None) {
            None => Ok(()),
            Some(current) => {
                self.points.push(current.into_point(tree.into_steps()))?;
                Ok(())
            }
        }
    }

    // A point begins.
    fn point(&mut self, alloc: Global, orders: usize, numbers: &Nums<'_>) -> Result<(), AllocError>
        requires { length numbers.now ≡ 2 }
        ensures { OnOk result (self.new ≡ record (closed self.old) {
          current = Some (built_sums numbers.now, empty_plan orders);
        }) }
    {
        let current = Placing::new(alloc, read_sums(numbers), orders)?;
        self.close(alloc)?;
        self.current = Some(current);
        Ok(())
    }

    // A new slab.
    fn new_slab(&mut self, alloc: Global, numbers: &Nums<'_>) -> Result<(), AllocError>
        ensures { OnOk result
            (self.new ≡ record self.old { current = add_new self.old.current numbers.now }) }
    {
        let numbers = copy_numbers(alloc, numbers)?;
        match numbers.as_slice() {
            [] => Ok(()),
            [size, orders @ ..] => {
                let orders = list_orders(alloc, orders)?;
                self.slab(Kind::New(natural16(*size)), &orders)
            }
        }
    }

    // A surplus slab.
    fn old_slab(&mut self, alloc: Global, numbers: &Nums<'_>) -> Result<(), AllocError>
        ensures { OnOk result
            (self.new ≡ record self.old { current = add_old self.old.current numbers.now }) }
    {
        let numbers = copy_numbers(alloc, numbers)?;
        match numbers.as_slice() {
            [] => Ok(()),
            [slab, orders @ ..] => {
                let orders = list_orders(alloc, orders)?;
                self.slab(Kind::Old(index16(*slab)), &orders)
            }
        }
    }

    // A slab of the plan.
    fn slab(&mut self, kind: Kind, orders: &[u16]) -> Result<(), AllocError>
        ensures { OnOk result (self.new ≡
            record self.old { current = add_to_current self.old.current kind orders.now }) }
    {
        match &mut self.current {
            None => Ok(()),
            Some(current) => current.add(kind, orders),
        }
    }

    // A question of the tree, or of the outline.
    fn ask(&mut self, ask: Ask) -> Result<(), AllocError>
        ensures { OnOk result (self.new ≡ add_ask self.old ask) }
    {
        match &mut self.outline {
            None => self.tree.question(ask),
            Some(outline) => outline.add(Some(ask)),
        }
    }

    // The outline begins.
    fn cut(&mut self, alloc: Global) -> Result<(), AllocError>
        ensures { OnOk result (self.new ≡ record (closed self.old) { outline = Some [] }) }
    {
        self.close(alloc)?;
        self.outline = Some(Outline::new(alloc));
        Ok(())
    }

    // An end of the outline.
    fn open_end(&mut self) -> Result<(), AllocError>
        ensures { OnOk result (self.new ≡ add_open_to self.old self.old.outline) }
    {
        match &mut self.outline {
            None => Ok(()),
            Some(outline) => outline.add(None),
        }
    }

    // The finished points.
    pub(crate) fn into_head(self) -> Head
        ensures { result ≡ self.points }
    {
        Head::new(self.points)
    }

    // The certificate that was built.
    pub(crate) fn into_certificate(self) -> CertRead
        ensures { (m : Mill) (bytes : List ℕ) →
            IsBuiltFrom m All bytes self → IsCertRead m bytes result }
    {
        let Assembly {
            version,
            points,
            current: _current,
            tree,
            outline,
        } = self;
        let head = Head::new(points);
        let last = tree.into_steps();
        match outline {
            Some(outline) => CertRead::Cut(version, head, outline.into_open_tree()),
            None => whole_certificate(version, head, last),
        }
    }
}

// A whole certificate of these parts.
fn whole_certificate(version: Version, head: Head, last: Steps) -> CertRead
    ensures { (m : Mill) (bytes : List ℕ) →
        IsSpelledWhole m bytes version head last → IsCertRead m bytes result }
{
    if head.points().is_empty() {
        CertRead::NoPlan(version, last)
    } else {
        CertRead::Whole(version, Front::new(head, last))
    }
}
