//! Whether steps are a tree that refutes some limits.
ghost use Rattle.std.specs.Prelude.{◌≡◌, ◌↔◌, [], IsTrue, length};
ghost use Rattle.mill_model.specs.Decisions.{IsAsk};
ghost use Rattle.mill_model.specs.Prices.{Refutes};
ghost use Rattle.mill_model.specs.Trees.{IsRefutation};
ghost use Rattle.kept_trees.specs.Walking.{IsTaken, IsAsked};

use mill_model::{Ask, Limits, Mill, Prices, Step};
use price_check::Path;

// What taking a step comes to.
#[derive(Clone, Copy)]
enum Took {
    // The walk goes on at the path.
    On,
    // The tree ends with this step.
    End,
    // The step can't stand here.
    Bad,
}

/// Whether these steps are, in preorder, a tree that refutes the limits: one walk through them. The path is one for the mill; its
/// decisions go. It takes no memory.
pub fn is_tree(mill: &Mill, limits: Limits, path: &mut Path, steps: &[Step]) -> bool
    requires orders { path.old.orders ≡ length mill.now.orders }
    requires slabs { path.old.slabs ≡ length mill.now.yard }
    ensures tree { IsTrue result ↔ IsRefutation mill.now limits [] steps.now }
    ensures path { path.new ≡ record path.old {
      decisions = path.new.decisions;
      bad = path.new.bad;
    } }
{
    path.clear();
    for (i, step) in steps.iter().enumerate() {
        match take(mill, limits, path, step) {
            Took::On => {}
            Took::End => return i + 1 == steps.len(),
            Took::Bad => return false,
        }
    }
    false
}

// Takes one step.
fn take(mill: &Mill, limits: Limits, path: &mut Path, step: &Step) -> Took
    requires orders { path.old.orders ≡ length mill.now.orders }
    requires slabs { path.old.slabs ≡ length mill.now.yard }
    ensures taken { IsTaken mill.now limits path.old.decisions step.now path.new.decisions result }
    ensures path { path.new ≡ record path.old {
      decisions = path.new.decisions;
      bad = path.new.bad;
    } }
{
    match step {
        Step::Pair(i, j) => ask(mill, path, Ask::Pair(*i, *j)),
        Step::Put(o, s) => ask(mill, path, Ask::Put(*o, *s)),
        Step::Leaf(prices) => {
            if !refutes(mill, limits, path, prices) {
                return Took::Bad;
            }
            if path.next_branch() {
                Took::On
            } else {
                Took::End
            }
        }
    }
}

// Goes down to the branch for yes of a question.
fn ask(mill: &Mill, path: &mut Path, ask: Ask) -> Took
    requires orders { path.old.orders ≡ length mill.now.orders }
    requires slabs { path.old.slabs ≡ length mill.now.yard }
    ensures asked { IsAsked mill.now ask path.old.decisions path.new.decisions result }
    ensures path { path.new ≡ record path.old {
      decisions = path.new.decisions;
      bad = path.new.bad;
    } }
{
    if is_ask(mill, ask) && path.push(ask) {
        Took::On
    } else {
        Took::Bad
    }
}

// Whether the prices of a leaf refute the limits under the decisions of the path.
fn refutes(mill: &Mill, limits: Limits, path: &mut Path, prices: &Prices) -> bool
    requires orders { path.old.orders ≡ length mill.now.orders }
    requires slabs { path.old.slabs ≡ length mill.now.yard }
    ensures refutes { IsTrue result ↔ Refutes mill.now limits path.old.decisions prices.now }
    ensures path { path.new ≡ record path.old { bad = path.new.bad } }
{
    path.prices_ok(mill, limits, prices).is_ok()
}

// Whether it is a question of this mill.
fn is_ask(mill: &Mill, ask: Ask) -> bool
    ensures { IsTrue result ↔ IsAsk mill.now ask }
{
    let orders = mill.orders().len();
    match ask {
        Ask::Pair(i, j) => i < j && usize::from(j) < orders,
        Ask::Put(o, s) => usize::from(o) < orders && usize::from(s) < mill.yard().len(),
    }
}
