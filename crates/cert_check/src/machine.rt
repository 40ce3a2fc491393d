//! The line machine: a line after another, and what can stand next.
ghost use Rattle.std.specs.Prelude.{◌≡◌, [], true, false, IfOk, Some, length, ◌≤◌, if◌then◌else◌};
ghost use Rattle.cert_check.specs.Held.{HasColumn, IsOver};
ghost use Rattle.mill_model.specs.Mill.{IsInLimits, most_orders};
ghost use Rattle.cert_check.specs.Endings.{IsEndingOf};
ghost use Rattle.cert_check.specs.Machines.{IsFitted};
ghost use Rattle.cert_view.specs.declared.line.Line.TheVariants as lines;
ghost use Rattle.cert_view.specs.Text.{IsLine};
ghost use Rattle.cert_rules.specs.States.State.{Begin};
ghost use Rattle.cert_check.specs.declared.phase.Phase.TheVariants as phases;
ghost use Rattle.cert_check.specs.Kept.{Keeps};
ghost use Rattle.cert_check.specs.Lines.{IsNoSlab, IsNoLeaf, IsNoShare, IsNoOpen};
ghost use Rattle.cert_check.specs.Readings.{FindsColumn, IsTurn, IsSameReader, wanted_of};

use crate::ending::Ending;
use crate::phase::Phase;
use crate::spread::{new_share, old_share};
use crate::staircase::Staircase;
use crate::tree::{ask_line, can_begin, is_ask, leaf_line};
use crate::wanted::Wanted;
use cert_rules::Why;
use cert_slabs::{Draft, Roster, Tally};
use cert_view::{Line, Nums};
use mill_model::{Kind, MOST_ORDERS, Mill, Version};
use price_check::Path;
use std::alloc::{AllocError, Global};

/// What is kept between lines.
#[derive(Drop)]
pub(crate) struct Machine<'m> {
    mill: &'m Mill,
    wanted: Wanted,
    version: Version,
    phase: Phase,
    points: Staircase,
    draft: Draft,
    tally: Tally,
    path: Path,
    roster: Roster,
    ghost fitted: { IsFitted mill.now draft tally path },
}

impl<'m> Machine<'m> {
    ghost use Rattle.cert_check.specs.Seen.{seen};

    // A machine before the first line, with all the memory that it ever takes.
    pub(crate) fn new(
        alloc: Global,
        mill: &'m Mill,
        wanted: Wanted,
    ) -> Result<Machine<'m>, AllocError>
        ensures keeps { IfOk result (λ c. Keeps mill.now (seen c).kept Begin) }
        ensures mill { IfOk result (λ c. (seen c).mill ≡ mill.now) }
        ensures wanted { IfOk result (λ c. (seen c).wanted ≡ wanted_of wanted) }
    {
        let points = Staircase::new(alloc)?;
        let draft = Draft::new(alloc, mill)?;
        let tally = Tally::new(alloc, mill)?;
        let path = Path::new(alloc, mill)?;
        let roster = Roster::new(alloc)?;
        Ok(Machine {
            mill,
            wanted,
            version: Version::One,
            phase: Phase::Begin,
            points,
            draft,
            tally,
            path,
            roster,
        })
    }

    // What can stand next.
    pub(crate) fn phase(&self) -> Phase
        ensures { result ≡ (seen self.now).kept.phase }
    {
        self.phase
    }

    // How many orders the mill has.
    pub(crate) fn orders(&self) -> usize
        ensures { result ≡ length (seen self.now).mill.orders }
    {
        self.mill.orders().len()
    }

    // How the text has ended, with the points.
    pub(crate) fn into_ending(self) -> Ending
        requires { IsOver (seen self).kept.phase }
        ensures ending { IsEndingOf (seen self.entry).kept result }
        ensures limits { IsInLimits (seen self.entry).mill }
    {
        let orders = self.mill.orders().len();
        prove!(orders <= MOST_ORDERS as usize);
        let points = self.points.into_points();
        if self.phase == Phase::Proved {
            Ending::Proved(points)
        } else {
            Ending::Unfinished(points)
        }
    }

    // The column that exceeds the leaf that was tested last.
    pub(crate) fn bad_column(&self) -> (Kind, &[u16])
        requires { HasColumn (seen self.now) }
        ensures column { (seen self.now).bad
            ≡ Some (record { kind = result.0; orders = result.1.now }) }
        ensures few { length result.1.now ≤ most_orders }
    {
        let orders = self.mill.orders().len();
        prove!(orders <= MOST_ORDERS as usize);
        self.path.bad_column()
    }

    // Takes a line: it keeps its rules, or this is the first one that it breaks.
    pub(crate) fn line(&mut self, line: &Line<'_>) -> Result<(), Why>
        requires { IsLine line.now }
        ensures turn { IsTurn (seen self.old) (seen self.new) line.now result }
        ensures same { IsSameReader (seen self.old) (seen self.new) }
        ensures column { FindsColumn (seen self.old) (seen self.new) line.now result }
    {
        match self.phase {
            Phase::Begin => self.header(line),
            Phase::Between => self.between(line),
            Phase::Plan => self.in_plan(line),
            Phase::Tree(rest) => self.in_tree(rest, line),
            Phase::Question(rest) => self.question(rest, line),
            Phase::Spread(rest) => self.in_spread(rest, line),
            Phase::Open => self.in_open_tree(line),
            Phase::Proved => Err(Why::Expect),
            Phase::Unfinished => Err(Why::Expect),
        }
    }

    // The first line is a header.
    fn header(&mut self, line: &Line<'_>) -> Result<(), Why>
        requires { self.old.phase ≡ phases.Begin }
        ensures turn { IsTurn (seen self.old) (seen self.new) line.now result }
        ensures same { IsSameReader (seen self.old) (seen self.new) }
        ensures column { FindsColumn (seen self.old) (seen self.new) line.now result }
    {
        match line {
            Line::Header => {
                self.version = Version::One;
                self.phase = Phase::Between;
                Ok(())
            }
            Line::Header2 => {
                self.version = Version::Two;
                self.phase = Phase::Between;
                Ok(())
            }
            _ => Err(Why::Expect),
        }
    }

    // A point follows, or how the certificate ends.
    fn between(&mut self, line: &Line<'_>) -> Result<(), Why>
        requires phase { self.old.phase ≡ phases.Between }
        requires line { IsLine line.now }
        ensures turn { IsTurn (seen self.old) (seen self.new) line.now result }
        ensures same { IsSameReader (seen self.old) (seen self.new) }
        ensures column { FindsColumn (seen self.old) (seen self.new) line.now result }
    {
        match line {
            Line::Point(numbers) => match self.points.add(numbers) {
                Err(why) => Err(why),
                Ok(()) => {
                    self.draft.clear();
                    self.phase = Phase::Plan;
                    Ok(())
                }
            },
            Line::Done => {
                if self.wanted == Wanted::Cuts {
                    return Err(Why::Expect);
                }
                self.phase = Phase::Tree(true);
                Ok(())
            }
            Line::Cut => {
                self.phase = Phase::Open;
                Ok(())
            }
            _ => Err(Why::Expect),
        }
    }

    // A slab follows, or the first line of the point's tree.
    fn in_plan(&mut self, line: &Line<'_>) -> Result<(), Why>
        requires phase { self.old.phase ≡ phases.Plan }
        requires line { IsLine line.now }
        ensures turn { IsTurn (seen self.old) (seen self.new) line.now result }
        ensures same { IsSameReader (seen self.old) (seen self.new) }
        ensures column { FindsColumn (seen self.old) (seen self.new) line.now result }
    {
        match line {
            Line::New(numbers) => self.draft.new_slab(self.mill, &mut self.roster, numbers),
            Line::Old(numbers) => self.draft.old_slab(self.mill, &mut self.roster, numbers),
            _ => self.end_plan(line),
        }
    }

    // The first line of a point's tree, before which its plan ends.
    fn end_plan(&mut self, line: &Line<'_>) -> Result<(), Why>
        requires phase { self.old.phase ≡ phases.Plan }
        requires line { IsLine line.now }
        requires other { IsNoSlab line.now }
        ensures turn { IsTurn (seen self.old) (seen self.new) line.now result }
        ensures same { IsSameReader (seen self.old) (seen self.new) }
        ensures column { FindsColumn (seen self.old) (seen self.new) line.now result }
    {
        if !can_begin(self.version, line) {
            return Err(Why::Expect);
        }
        // A plan is that of the latest point.
        let Some(sums) = self.points.latest() else {
            return Err(Why::Expect);
        };
        match self.draft.test_plan(self.mill, sums) {
            Err(why) => Err(why),
            Ok(()) => {
                self.phase = Phase::Tree(false);
                self.in_tree(false, line)
            }
        }
    }

    // A tree begins.
    fn in_tree(&mut self, rest: bool, line: &Line<'_>) -> Result<(), Why>
        requires phase { self.old.phase ≡ phases.Tree rest }
        requires line { IsLine line.now }
        ensures turn { IsTurn (seen self.old) (seen self.new) line.now result }
        ensures same { IsSameReader (seen self.old) (seen self.new) }
        ensures column { FindsColumn (seen self.old) (seen self.new) line.now result }
    {
        match line {
            Line::Leaf(numbers) => self.leaf(rest, numbers),
            _ => match self.version {
                Version::One => self.unmarked(rest, line),
                Version::Two => self.mark(rest, line),
            },
        }
    }

    // A question where nothing is marked.
    fn unmarked(&mut self, rest: bool, line: &Line<'_>) -> Result<(), Why>
        requires phase { self.old.phase ≡ phases.Tree rest }
        requires version { self.old.version ≡ Version.One }
        requires line { IsLine line.now }
        requires other { IsNoLeaf line.now }
        ensures turn { IsTurn (seen self.old) (seen self.new) line.now result }
        ensures same { IsSameReader (seen self.old) (seen self.new) }
        ensures column { FindsColumn (seen self.old) (seen self.new) line.now result }
    {
        ask_line(self.mill, &mut self.path, line)
    }

    // A leaf, after which the next branch begins or the tree has ended.
    fn leaf(&mut self, rest: bool, numbers: &Nums<'_>) -> Result<(), Why>
        requires phase { self.old.phase ≡ phases.Tree rest }
        ensures turn { IsTurn (seen self.old) (seen self.new) (lines.Leaf numbers.now) result }
        ensures same { IsSameReader (seen self.old) (seen self.new) }
        ensures column { FindsColumn
            (seen self.old) (seen self.new) (lines.Leaf numbers.now) result }
    {
        let limits = self.points.limits(rest);
        match leaf_line(self.mill, limits, &mut self.path, numbers) {
            Err(why) => Err(why),
            Ok(()) => {
                if !self.path.next_branch() {
                    self.phase = after_tree(rest);
                }
                Ok(())
            }
        }
    }

    // The mark of a question, or its first line.
    fn mark(&mut self, rest: bool, line: &Line<'_>) -> Result<(), Why>
        requires phase { self.old.phase ≡ phases.Tree rest }
        requires version { self.old.version ≡ Version.Two }
        requires line { IsLine line.now }
        requires other { IsNoLeaf line.now }
        ensures turn { IsTurn (seen self.old) (seen self.new) line.now result }
        ensures same { IsSameReader (seen self.old) (seen self.new) }
        ensures column { FindsColumn (seen self.old) (seen self.new) line.now result }
    {
        match line {
            Line::Bare => {
                self.phase = Phase::Question(rest);
                Ok(())
            }
            Line::Plain => {
                self.phase = Phase::Question(rest);
                Ok(())
            }
            Line::Spread(numbers) => match self.tally.start(numbers) {
                Err(why) => Err(why),
                Ok(()) => {
                    self.phase = Phase::Spread(rest);
                    Ok(())
                }
            },
            _ => Err(Why::Expect),
        }
    }

    // The question whose mark was read.
    fn question(&mut self, rest: bool, line: &Line<'_>) -> Result<(), Why>
        requires phase { self.old.phase ≡ phases.Question rest }
        requires line { IsLine line.now }
        ensures turn { IsTurn (seen self.old) (seen self.new) line.now result }
        ensures same { IsSameReader (seen self.old) (seen self.new) }
        ensures column { FindsColumn (seen self.old) (seen self.new) line.now result }
    {
        match ask_line(self.mill, &mut self.path, line) {
            Err(why) => Err(why),
            Ok(()) => {
                self.phase = Phase::Tree(rest);
                Ok(())
            }
        }
    }

    // A share follows, or the question.
    fn in_spread(&mut self, rest: bool, line: &Line<'_>) -> Result<(), Why>
        requires phase { self.old.phase ≡ phases.Spread rest }
        requires line { IsLine line.now }
        ensures turn { IsTurn (seen self.old) (seen self.new) line.now result }
        ensures same { IsSameReader (seen self.old) (seen self.new) }
        ensures column { FindsColumn (seen self.old) (seen self.new) line.now result }
    {
        match line {
            Line::CNew(numbers) => {
                new_share(
                    self.mill,
                    &self.path,
                    &mut self.tally,
                    &mut self.roster,
                    numbers,
                )
            }
            Line::COld(numbers) => {
                old_share(
                    self.mill,
                    &self.path,
                    &mut self.tally,
                    &mut self.roster,
                    numbers,
                )
            }
            _ => self.end_spread(rest, line),
        }
    }

    // The question after a spread, before which this ends.
    fn end_spread(&mut self, rest: bool, line: &Line<'_>) -> Result<(), Why>
        requires phase { self.old.phase ≡ phases.Spread rest }
        requires line { IsLine line.now }
        requires other { IsNoShare line.now }
        ensures turn { IsTurn (seen self.old) (seen self.new) line.now result }
        ensures same { IsSameReader (seen self.old) (seen self.new) }
        ensures column { FindsColumn (seen self.old) (seen self.new) line.now result }
    {
        if !self.tally.has_begun() || !is_ask(line) {
            return Err(Why::Expect);
        }
        let limits = self.points.limits(rest);
        match self.tally.test_cover(limits) {
            Err(why) => Err(why),
            Ok(()) => match ask_line(self.mill, &mut self.path, line) {
                Err(why) => Err(why),
                Ok(()) => {
                    self.phase = Phase::Tree(rest);
                    Ok(())
                }
            },
        }
    }

    // A line of the open tree.
    fn in_open_tree(&mut self, line: &Line<'_>) -> Result<(), Why>
        requires phase { self.old.phase ≡ phases.Open }
        requires line { IsLine line.now }
        ensures turn { IsTurn (seen self.old) (seen self.new) line.now result }
        ensures same { IsSameReader (seen self.old) (seen self.new) }
        ensures column { FindsColumn (seen self.old) (seen self.new) line.now result }
    {
        match line {
            Line::Open => {
                if !self.path.next_branch() {
                    self.phase = Phase::Unfinished;
                }
                Ok(())
            }
            _ => self.open_question(line),
        }
    }

    // A question of the open tree.
    fn open_question(&mut self, line: &Line<'_>) -> Result<(), Why>
        requires phase { self.old.phase ≡ phases.Open }
        requires line { IsLine line.now }
        requires other { IsNoOpen line.now }
        ensures turn { IsTurn (seen self.old) (seen self.new) line.now result }
        ensures same { IsSameReader (seen self.old) (seen self.new) }
        ensures column { FindsColumn (seen self.old) (seen self.new) line.now result }
    {
        ask_line(self.mill, &mut self.path, line)
    }
}

// What follows a tree: that of a point, or the one after `done`.
fn after_tree(rest: bool) -> Phase
    ensures { result ≡ (if rest then phases.Proved else phases.Between) }
{
    if rest { Phase::Proved } else { Phase::Between }
}
