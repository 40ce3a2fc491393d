//! The sets of colours, one after the other.
ghost use Rattle.std.specs.Prelude.{◌≡◌, ◌+◌, ◌^◌, ◌≤◌, ℕ, pos, ◌≤ℤ◌, true, List, unsigned_abs, length, []};
ghost use Rattle.std.specs.Bool.{OnTrue};
ghost use Rattle.mill_model.specs.Mill.{most_colour_limit};
ghost use Rattle.mill_model.specs.Columns.{has};
ghost use Rattle.pricing_laws.specs.Colours.{AreOf};
ghost use Rattle.pricing_laws.specs.Parts.{left_of};
ghost use Rattle.pricing_laws.specs.Problems.{ExceedAtMost};
ghost use Rattle.pricing_laws.specs.Worths.{worth_of};
ghost use Rattle.slab_price.specs.Bests.{IsImprovedIn};
ghost use Rattle.pricing_laws.specs.Searches.{AreRanked, AreTakenFrom, IsOfSetIn, IsQueue};
ghost use Rattle.slab_price.specs.Tasks.{problem_of};
ghost use Rattle.slab_price.specs.Searches.{queue_of, search_of};

use crate::hunt::Hunt;
use crate::picks::Picks;
use crate::queue::Queue;
use crate::search::Search;
use smallvec::SmallVec;
use std::alloc::Global;

// A set of colours that is gone through, and room for its groups.
#[derive(Drop)]
pub(crate) struct Space {
    pub colours: SmallVec<u16, 3>,
    pub queue: Queue,
    ghost room: { most_colour_limit ≤ colours.capacity },
}

impl Space {
    // No colour yet.
    pub(crate) fn new(alloc: Global, queue: Queue) -> Space
        ensures { result.colours.items ≡ [] }
    {
        Space {
            colours: SmallVec::new(alloc),
            queue,
        }
    }
}

impl Search<'_> {
    // What a colour among the first ones of the ranking is worth at most.
    fn top(&self, rank: usize) -> i128
        requires { rank ≤ length self.now.frame.now.ranking.items }
        ensures most { (colour : ℕ)
            → has (left_of self.now.frame.now.ranking.items rank) colour ≡ true
            → worth_of self.now.frame.now.worths.items colour ≤ℤ result }
        ensures sign { pos 0 ≤ℤ result }
        ensures small { unsigned_abs result ≤ 2 ^ 94 }
    {
        if rank == 0 {
            return 0;
        }
        self.frame.worths[usize::from(self.frame.ranking[rank - 1])]
    }

    // Whether no column of the colours taken and of some of those left exceeds more than the best.
    fn is_hopeless(&self, rank: usize, left: u16, worth: i128, best: i128) -> bool
        requires rank { rank ≤ length self.now.frame.now.ranking.items }
        requires left { left ≤ most_colour_limit }
        requires small { unsigned_abs worth ≤ 2 ^ 100 }
        ensures { (taken : List ℕ) → AreTakenFrom (search_of self.now) rank taken worth
            → OnTrue result
            (ExceedAtMost (problem_of self.now.task) best
            (IsOfSetIn (search_of self.now) taken rank left)) }
    {
        worth + i128::from(left) * self.top(rank) - self.frame.floor <= best
    }

    // Improves the best by the columns of the colours of a queue.
    fn walk_queue(&self, colours: &[u16], queue: &Queue, picks: &mut Picks)
        requires queue { IsQueue (search_of self.now) colours.now (queue_of queue.now) }
        requires chosen { picks.old.chosen.items ≡ [] }
        ensures chosen { picks.new.chosen.items ≡ [] }
        ensures improved { IsImprovedIn self.now.task picks.old.best picks.new.best
            (λ c. AreOf self.now.task.mill.now colours.now c.orders) }
    {
        let hunt = Hunt {
            search: *self,
            colours,
            queue,
        };
        hunt.walk(queue.heads.len(), 0, 0, picks);
    }

    // Improves the best by the columns of some colours.
    fn search_set(&self, colours: &[u16], queue: &mut Queue, picks: &mut Picks)
        requires ranked { AreRanked (search_of self.now) colours.now }
        requires chosen { picks.old.chosen.items ≡ [] }
        ensures chosen { picks.new.chosen.items ≡ [] }
        ensures improved { IsImprovedIn self.now.task picks.old.best picks.new.best
            (λ c. AreOf self.now.task.mill.now colours.now c.orders) }
    {
        self.fill(colours, queue);
        self.walk_queue(colours, queue, picks);
    }

    // Improves the best by the columns of the colours taken and of at most so many of the first ones of the ranking. A set is
    // left out only where its bound isn't above the best.
    pub(crate) fn search_sets(
        &self,
        rank: usize,
        left: u16,
        worth: i128,
        space: &mut Space,
        picks: &mut Picks,
    )
        requires rank { rank ≤ length self.now.frame.now.ranking.items }
        requires few { length space.old.colours.items + left ≤ self.now.task.mill.now.colour_limit }
        requires taken { AreTakenFrom (search_of self.now) rank space.old.colours.items worth }
        requires chosen { picks.old.chosen.items ≡ [] }
        ensures colours { space.new.colours.items ≡ space.old.colours.items }
        ensures chosen { picks.new.chosen.items ≡ [] }
        ensures improved { IsImprovedIn self.now.task picks.old.best picks.new.best
            (IsOfSetIn (search_of self.now) space.old.colours.items rank left) }
    {
        if self.is_hopeless(rank, left, worth, picks.best.excess) {
            return;
        }
        if rank == 0 || left == 0 {
            self.search_set(space.colours.as_slice(), &mut space.queue, picks);
            return;
        }
        let colour = self.frame.ranking[rank - 1];
        let richer = worth + self.frame.worths[usize::from(colour)];
        space.colours.push_reserved(colour);
        self.search_sets(rank - 1, left - 1, richer, space, picks);
        space.colours.pop();
        self.search_sets(rank - 1, left, worth, space, picks);
    }
}
