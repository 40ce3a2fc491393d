// The search of a mill, and what it found.
ghost use Rattle.std.specs.Prelude.{◌≡◌, [], IfOk};
ghost use Rattle.mill_model.specs.Mill.{IsBetween};
ghost use Rattle.mill_model.specs.Fronts.{IsGoodHead};
ghost use Rattle.mill_model.specs.declared.version.Version.TheVariants.{Two};
ghost use Rattle.slab_start.specs.Plain.{IsPlainMill};
ghost use Rattle.slab_sweep.specs.Swept.{IsToldPlainly};
ghost use Rattle.slab_relax.specs.Tallies.{AreNoLess};
ghost use Rattle.cert_write.specs.Parts.{certificate_of as certificate_stored};
ghost use Rattle.slab_front.specs.Words.{most_limit};
ghost use Rattle.slab_front.specs.Searched.{IsSearched, certificate_of, status_of, word_of};

use cert_write::Stored;
use mill_model::{Head, Mill, Starter};
use mill_report::Word;
use slab_node::Tally;
use slab_sweep::{Swept, sweep};
use slab_tree::Nodes;
use std::alloc::{AllocError, Global};
use std::marker::Model;

/// What a search found, and how many nodes it opened, so many of them bare.
#[derive(Drop)]
pub struct Search {
    swept: Swept,
    // The points where there are none.
    none: Head,
    opened: u64,
    bare: u64,
}

impl Model for Search {
    ghost use Rattle.std.specs.Prelude.{◌≡◌, []};
    ghost use Rattle.slab_front.specs.Searched.{Searched};
    ghost use Rattle.slab_front.specs.Searches.{searched, HasPointIfWhole};

    ghost Value = { Searched };

    ghost view = { λ s. searched s.swept s.opened s.bare };

    ghost invariant = { λ s. (s.none ≡ []) × HasPointIfWhole s.swept };
}

/// The Pareto front of a mill by a sweep, which goes on from the points before. A starter's plan opens each question; for a plain
/// mill it tells a plan without loss. One question's tree may have so many nodes. The only error is want of memory.
pub fn search_front<S: Starter>(
    alloc: Global,
    mill: &Mill,
    starter: &mut S,
    before: Head,
    limit: u64,
    tally: &mut Tally,
) -> Result<Search, AllocError>
    requires limit { IsBetween 1 most_limit limit }
    requires head { IsGoodHead mill.now before }
    requires plain { IsPlainMill mill.now → IsToldPlainly (S.told starter.old) mill.now }
    ensures found { IfOk result (λ s. IsSearched (S.told starter.old) mill.now before limit
        tally.old tally.new (status_of s) s) }
    ensures counters { AreNoLess tally.old tally.new }
{
    // Its readers tell that a mill is within its limits.
    let _orders = mill.orders();
    let none = no_points(alloc);
    let mut nodes = Nodes::new(limit);
    let swept = sweep(alloc, mill, starter, before, &mut nodes, tally)?;
    Ok(Search {
        swept,
        none,
        opened: nodes.opened(),
        bare: nodes.bare(),
    })
}

// A head without a point.
pub(crate) fn no_points(alloc: Global) -> Head
    ensures { result ≡ [] }
{
    Head::new(Vec::new(alloc))
}

impl Search {
    /// The status with which a run of it ends.
    pub fn status(&self) -> u8
        ensures { result ≡ status_of self.now }
    {
        match &self.swept {
            Swept::Complete(_) => 0,
            Swept::Budget(_, _) => 3,
            Swept::NoPlan(_) => 4,
        }
    }

    /// The last word of what is said of it.
    pub fn word(&self) -> Word
        ensures { result ≡ word_of self.now }
    {
        match &self.swept {
            Swept::Complete(_) => Word::Complete,
            Swept::Budget(_, _) => Word::Budget,
            Swept::NoPlan(_) => Word::NoPlan,
        }
    }

    /// Its points.
    pub fn head(&self) -> &Head
        ensures { result.now ≡ self.now.points }
    {
        match &self.swept {
            Swept::Complete(front) => front.head(),
            Swept::Budget(head, _) => head,
            Swept::NoPlan(_) => &self.none,
        }
    }

    /// Its certificate.
    pub fn stored(&self) -> Stored<'_>
        ensures { certificate_stored Two result ≡ certificate_of self.now }
    {
        match &self.swept {
            Swept::Complete(front) => Stored::Whole(front),
            Swept::Budget(head, rest) => Stored::Cut(head, rest),
            Swept::NoPlan(last) => Stored::NoPlan(last),
        }
    }

    /// How many nodes were opened.
    pub fn opened(&self) -> u64
        ensures { result ≡ self.now.opened }
    {
        self.opened
    }

    /// How many of them are bare splits.
    pub fn bare(&self) -> u64
        ensures { result ≡ self.now.bare }
    {
        self.bare
    }
}
