//! The sets of colours, one after the other.
ghost use Rattle.std.specs.Prelude.{◌≡◌, ◌+◌, ◌^◌, ◌≤◌, ℕ, pos, ◌≤ℤ◌, true, List, unsigned_abs, length, [], IfNone, vec_capacity};
ghost use Rattle.std.specs.Bool.{OnTrue};
ghost use Rattle.mill_model.specs.Mill.{most_colour_limit};
ghost use Rattle.mill_model.specs.Columns.{has};
ghost use Rattle.pricing_laws.specs.Colours.{AreOf};
ghost use Rattle.pricing_laws.specs.Parts.{left_of};
ghost use Rattle.pricing_laws.specs.Problems.{ExceedAtMost};
ghost use Rattle.pricing_laws.specs.Worths.{worth_of};
ghost use Rattle.price_check.specs.Finds.{IsAnswerIn};
ghost use Rattle.pricing_laws.specs.Searches.{AreRanked, AreTakenFrom, IsOfSetIn, IsQueue};
ghost use Rattle.price_check.specs.Leaves.{problem_of};
ghost use Rattle.price_check.specs.Searches.{search_of};
ghost use Rattle.price_check.specs.Searches.{queue_of};

use crate::hunt::Hunt;
use crate::picks::Picks;
use crate::queue::Queue;
use crate::search::Search;
use mill_model::{Kind, MOST_COLOUR_LIMIT};
use std::alloc::{AllocError, Global};

// A set of colours that is gone through, and room for its groups.
#[derive(Drop)]
pub(crate) struct Space {
    pub colours: Vec<u16>,
    pub queue: Queue,
    ghost room: { most_colour_limit ≤ vec_capacity colours },
}

impl Space {
    // No colour yet.
    pub(crate) fn new(alloc: Global, queue: Queue) -> Result<Space, AllocError> {
        Ok(Space {
            colours: Vec::with_capacity(alloc, usize::from(MOST_COLOUR_LIMIT))?,
            queue,
        })
    }
}

impl Search<'_> {
    // What a colour among the first ones of the ranking is worth at most.
    fn top(&self, rank: usize) -> i128
        requires { rank ≤ length self.now.frame.now.ranking.items }
        ensures most { (colour : ℕ)
            → has (left_of self.now.frame.now.ranking.items rank) colour ≡ true
            → worth_of self.now.frame.now.worths.items colour ≤ℤ result }
        ensures sign { pos 0 ≤ℤ result }
        ensures small { unsigned_abs result ≤ 2 ^ 94 }
    {
        if rank == 0 {
            return 0;
        }
        self.frame.worths[usize::from(self.frame.ranking[rank - 1])]
    }

    // Whether no column of the colours taken and of some of those left exceeds.
    fn is_hopeless(&self, rank: usize, left: u16, worth: i128) -> bool
        requires rank { rank ≤ length self.now.frame.now.ranking.items }
        requires left { left ≤ most_colour_limit }
        requires small { unsigned_abs worth ≤ 2 ^ 100 }
        ensures { (taken : List ℕ) → AreTakenFrom (search_of self.now) rank taken worth
            → OnTrue result
            (ExceedAtMost (problem_of self.now.leaf) (pos 0)
            (IsOfSetIn (search_of self.now) taken rank left)) }
    {
        worth + i128::from(left) * self.top(rank) <= self.frame.floor
    }

    // Looks for a column of the colours of a queue that exceeds.
    fn walk_queue(&self, colours: &[u16], queue: &Queue, picks: &mut Picks) -> Option<Kind>
        requires queue { IsQueue (search_of self.now) colours.now (queue_of queue.now) }
        requires chosen { picks.old.chosen.items ≡ [] }
        ensures chosen { IfNone result (picks.new.chosen.items ≡ []) }
        ensures answer { IsAnswerIn self.now.leaf picks.new.orders.items result
            (λ c. AreOf self.now.leaf.mill.now colours.now c.orders) }
    {
        let hunt = Hunt {
            search: *self,
            colours,
            queue,
        };
        hunt.walk(queue.heads.len(), 0, 0, picks)
    }

    // Looks for a column of some colours that exceeds.
    fn search_set(&self, colours: &[u16], queue: &mut Queue, picks: &mut Picks) -> Option<Kind>
        requires ranked { AreRanked (search_of self.now) colours.now }
        requires chosen { picks.old.chosen.items ≡ [] }
        ensures chosen { IfNone result (picks.new.chosen.items ≡ []) }
        ensures answer { IsAnswerIn self.now.leaf picks.new.orders.items result
            (λ c. AreOf self.now.leaf.mill.now colours.now c.orders) }
    {
        self.fill(colours, queue);
        self.walk_queue(colours, queue, picks)
    }

    // Looks for a column that exceeds of the colours taken and of at most so many of the first ones of the ranking. Where there
    // is one, its orders are listed then. A set is left out only where its bound isn't above 0.
    pub(crate) fn search_sets(
        &self,
        rank: usize,
        left: u16,
        worth: i128,
        space: &mut Space,
        picks: &mut Picks,
    ) -> Option<Kind>
        requires rank { rank ≤ length self.now.frame.now.ranking.items }
        requires few { length space.old.colours.items + left ≤ self.now.leaf.mill.now.colour_limit }
        requires taken { AreTakenFrom (search_of self.now) rank space.old.colours.items worth }
        requires chosen { picks.old.chosen.items ≡ [] }
        ensures colours { IfNone result (space.new.colours.items ≡ space.old.colours.items) }
        ensures chosen { IfNone result (picks.new.chosen.items ≡ []) }
        ensures answer { IsAnswerIn self.now.leaf picks.new.orders.items result
            (IsOfSetIn (search_of self.now) space.old.colours.items rank left) }
    {
        if self.is_hopeless(rank, left, worth) {
            return None;
        }
        if rank == 0 || left == 0 {
            return self.search_set(&space.colours, &mut space.queue, picks);
        }
        let colour = self.frame.ranking[rank - 1];
        let richer = worth + self.frame.worths[usize::from(colour)];
        space.colours.push_reserved(colour);
        let found = self.search_sets(rank - 1, left - 1, richer, space, picks);
        if found.is_some() {
            return found;
        }
        space.colours.pop();
        self.search_sets(rank - 1, left, worth, space, picks)
    }
}
