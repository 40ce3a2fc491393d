//! The walk through a tree, one node after another.
ghost use Rattle.std.specs.Prelude.{◌≡◌, ◌∷◌, ◌++◌, ◌+◌, ◌-◌, ◌<◌, ◌^◌, [], ℕ, List, Bool, IfOk, OnOk, IsTrue, MatchBool, length, suc, true, false, None};
ghost use Rattle.mill_model.specs.declared.limits.Limits.{Limits};
ghost use Rattle.mill_model.specs.declared.mark.Mark.{Mark};
ghost use Rattle.mill_model.specs.Mill.{Mill};
ghost use Rattle.mill_model.specs.Decisions.{IsAskAmong};
ghost use Rattle.mill_model.specs.Marks.{HasRightMarks};
ghost use Rattle.mill_model.specs.Trees.{IsFresh, RefutingTree, Tree};
ghost use Rattle.mill_model.specs.Prices.{Prices};
ghost use Rattle.tree_nodes.specs.declared.node.Node.{Node};
ghost use Rattle.tree_nodes.specs.declared.node.Node.TheVariants.{Closed, Branched};
ghost use Rattle.cert_trim.specs.Walks.{AreFew, IsCoveredAbove, IsEnd, IsFor, IsGoing, IsLaid, IsStopped, IsUnmoved, IsUp, StaysFor};

use mill_model::{Ask, Limits, Mark, Mill, Prices};
use price_check::Path;
use std::alloc::{AllocError, Global};
use std::mem;
use tree_nodes::Node;

// Where a walk stands: the decisions above the next node, how many nodes were written before each of their questions, how
// many parts are left of a tree that one leaf stands for, and what was written.
#[derive(Drop)]
pub(crate) struct Walk {
    pub path: Path,
    pub places: Vec<usize>,
    pub left: usize,
    pub written: Vec<Node>,
}

// Adds a decision that was taken off.
fn put_back(path: &mut Path, ask: Ask, answer: bool)
    requires asked { IsAskAmong path.old.orders path.old.slabs ask }
    requires fresh { IsFresh ask path.old.decisions }
    ensures { path.new ≡ record path.old {
      decisions = (ask, answer) ∷ path.old.decisions;
      bad = None;
    } }
{
    let _fresh = path.push(ask);
    if !answer {
        path.next_branch();
    }
}

// Takes off the last place.
fn last_place(places: &mut Vec<usize>) -> usize
    ensures { (before : List ℕ) (place : ℕ) → places.old.items ≡ before ++ place ∷ [] →
        (places.new.items ≡ before) × (result ≡ place) }
{
    places.pop().unwrap_or(0)
}

// How many parts are left, where the branch for no of a question in whose branch for yes they lie is one more.
fn with_branch(left: usize, answer: bool) -> usize
    ensures no { answer ≡ false → result ≡ left }
    ensures yes { answer ≡ true → left < 2 ^ 64 - 1 → result ≡ left + 1 }
{
    if answer { left.saturating_add(1) } else { left }
}

impl Walk {
    // A walk for a mill. Its path takes the greatest part of the memory, and serves one tree after another.
    pub(crate) fn new(alloc: Global, mill: &Mill) -> Result<Walk, AllocError>
        ensures { IfOk result (IsFor mill.now) }
    {
        Ok(Walk {
            path: Path::new(alloc, mill)?,
            places: Vec::new(alloc),
            left: 0,
            written: Vec::new(alloc),
        })
    }

    // Goes back to before the first node of a tree.
    pub(crate) fn restart(&mut self)
        ensures same { StaysFor self.old self.new }
        ensures unmoved { IsUnmoved self.new }
    {
        self.path.clear();
        self.places.clear();
        self.left = 0;
        self.written.clear();
    }

    // Hands over what was written.
    pub(crate) fn take_written(&mut self, alloc: Global) -> Vec<Node>
        ensures same { StaysFor self.old self.new }
        ensures written { result.items ≡ self.old.written.items }
    {
        mem::replace(&mut self.written, Vec::new(alloc))
    }

    // Takes a question. Below a leaf that stands for it, it leaves two parts in its place.
    pub(crate) fn split(&mut self, ask: Ask, mark: Mark) -> Result<(), AllocError>
        requires asked { self.old.left ≡ 0 →
            IsAskAmong self.old.path.orders self.old.path.slabs ask }
        ensures same { StaysFor self.old self.new }
        ensures going { (m : Mill) (limits : Limits) (whole : Tree Mark Prices) (rest : List Node) →
            RefutingTree m limits whole [] → AreFew rest →
            IsGoing m limits whole self.old (Branched ask mark ∷ rest) →
            OnOk result (IsGoing m limits whole self.new rest) }
    {
        if self.left > 0 {
            self.left = with_branch(self.left, true);
            return Ok(());
        }
        self.places.push(self.written.len())?;
        self.written.push(Node::Branched(ask, mark))?;
        let _fresh = self.path.push(ask);
        Ok(())
    }

    // Takes off the question above, where its branch for no is done; else turns to that branch.
    fn goes_up(&mut self) -> bool
        ensures same { StaysFor self.old self.new }
        ensures ends { (m : Mill) (limits : Limits) (whole : Tree Mark Prices) (rest : List Node) →
            IsEnd m limits whole self.old rest →
            MatchBool result (IsEnd m limits whole self.new rest)
            (IsGoing m limits whole self.new rest) }
        ensures falls { IsTrue result →
            length self.old.path.decisions ≡ suc (length self.new.path.decisions) }
    {
        let Some((ask, answer)) = self.path.pop() else {
            return false;
        };
        if answer {
            put_back(&mut self.path, ask, false);
            return false;
        }
        let _place = last_place(&mut self.places);
        true
    }

    // The tree here is done.
    fn finish(&mut self)
        ensures same { StaysFor self.old self.new }
        ensures going { (m : Mill) (limits : Limits) (whole : Tree Mark Prices) (rest : List Node) →
            IsEnd m limits whole self.old rest → IsGoing m limits whole self.new rest }
    {
        while self.goes_up() {}
    }

    // Whether the question above shows a cover.
    fn is_covered(&self) -> bool
        ensures { IsTrue result → IsCoveredAbove self.now }
    {
        let Some(place) = self.places.last() else {
            return false;
        };
        matches!(
            self.written.get(*place),
            Some(Node::Branched(_, Mark::Spread(_)))
        )
    }

    // Where prices refute at the question above too, the walk goes up to it, and what was written below it is given up.
    fn rises(&mut self, mill: &Mill, limits: Limits, prices: &Prices) -> bool
        requires { IsFor mill.now self.old }
        ensures same { IsFor mill.now self.new }
        ensures up { (whole : Tree Mark Prices) (leads : Bool) (rest : List Node) →
            HasRightMarks mill.now limits whole [] → AreFew rest →
            IsUp mill.now limits whole self.old leads prices.now rest →
            MatchBool result (IsUp mill.now limits whole self.new true prices.now rest)
            (IsStopped mill.now limits whole self.new leads prices.now rest) }
        ensures falls { IsTrue result →
            length self.old.path.decisions ≡ suc (length self.new.path.decisions) }
    {
        if self.is_covered() {
            return false;
        }
        let Some((ask, answer)) = self.path.pop() else {
            return false;
        };
        if self.path.prices_ok(mill, limits, prices).is_err() {
            put_back(&mut self.path, ask, answer);
            return false;
        }
        let place = last_place(&mut self.places);
        self.written.truncate(place);
        self.left = with_branch(self.left, answer);
        true
    }

    // Goes up as far as prices refute. Answers whether they are the first to refute there.
    fn climb(&mut self, mill: &Mill, limits: Limits, prices: &Prices, leads: bool) -> bool
        requires { IsFor mill.now self.old }
        ensures same { IsFor mill.now self.new }
        ensures up { (whole : Tree Mark Prices) (rest : List Node) →
            HasRightMarks mill.now limits whole [] → AreFew rest →
            IsUp mill.now limits whole self.old leads prices.now rest →
            IsStopped mill.now limits whole self.new result prices.now rest }
    {
        let mut first = leads;
        while self.rises(mill, limits, prices) {
            first = true;
        }
        first
    }

    // Reads a leaf: of a tree that is read for itself, which it then is, or a part of one for which another stands.
    fn begin(&mut self) -> bool
        ensures same { StaysFor self.old self.new }
        ensures up { (m : Mill) (limits : Limits) (whole : Tree Mark Prices) (p : Prices)
            (rest : List Node) → RefutingTree m limits whole [] →
            IsGoing m limits whole self.old (Closed p ∷ rest) →
            IsUp m limits whole self.new result p rest }
    {
        if self.left == 0 {
            return true;
        }
        self.left -= 1;
        false
    }

    // Writes the leaf, where it stands for the tree.
    fn lay(&mut self, leads: bool, prices: Prices) -> Result<(), AllocError>
        ensures same { OnOk result (StaysFor self.old self.new) }
        ensures laid { OnOk result ((m : Mill) (limits : Limits) (whole : Tree Mark Prices)
            (rest : List Node) → IsStopped m limits whole self.old leads prices rest →
            IsLaid m limits whole self.new rest) }
    {
        if leads {
            self.written.push(Node::Closed(prices))?;
        }
        Ok(())
    }

    // Goes on, where the tree here is done.
    fn settle(&mut self)
        ensures same { StaysFor self.old self.new }
        ensures going { (m : Mill) (limits : Limits) (whole : Tree Mark Prices) (rest : List Node) →
            IsLaid m limits whole self.old rest → IsGoing m limits whole self.new rest }
    {
        if self.left == 0 {
            self.finish();
        }
    }

    // Takes a leaf.
    pub(crate) fn leaf(
        &mut self,
        mill: &Mill,
        limits: Limits,
        prices: Prices,
    ) -> Result<(), AllocError>
        requires { IsFor mill.now self.old }
        ensures same { OnOk result (IsFor mill.now self.new) }
        ensures going { (whole : Tree Mark Prices) (rest : List Node) →
            RefutingTree mill.now limits whole [] → HasRightMarks mill.now limits whole [] →
            AreFew rest →
            IsGoing mill.now limits whole self.old (Closed prices ∷ rest) →
            OnOk result (IsGoing mill.now limits whole self.new rest) }
    {
        let fresh = self.begin();
        let leads = self.climb(mill, limits, &prices, fresh);
        self.lay(leads, prices)?;
        self.settle();
        Ok(())
    }
}
