// A whole run, from its words to its status.
ghost use Rattle.std.specs.Prelude.{◌≡◌, ◌≢◌, ◌⊎◌, ◌↔◌, ◌<◌, ◌≤◌, IsTrue, map, IfOk};
ghost use Rattle.std.specs.String.{string_bytes};
ghost use Rattle.slab_counter.specs.Counter.{Rose, last_count};
ghost use Rattle.slab_desk.specs.Desk.{Steps};
ghost use Rattle.slab_relax.specs.Tallies.{AreNoLess};
ghost use Rattle.run_words.specs.Texts.{usage_text as usage_line};
ghost use Rattle.run_words.specs.Ends.{EndsByFaults};
ghost use Rattle.run_words.specs.Opens.{HasOpened};
ghost use Rattle.slab_front.specs.Jobs.{command_of, IsInRanges};
ghost use Rattle.slab_front.specs.Words.{job_of};
ghost use Rattle.slab_front.specs.Outcomes.{Ran};
ghost use Rattle.slab_front.specs.Owed.{Owes, OwesOfCommand, Exactly, MayEnd, LeavesUnread};
ghost use Rattle.slab_front.specs.Endings.{HasOnlyRead, IsAnswer, IsStop, IsStoppedBy, MayAnswer};
ghost use Rattle.slab_front.specs.Opens.{AsksInOrder, IsOpenedFor};

use crate::ending::{Answer, Stop};
use crate::giving::{give, say};
use crate::judge::judge;
use crate::names::{MillNames, SearchNames};
use crate::solve::{make, resume, solve};
use crate::texts::usage_text;
use crate::words::{Job, UsageAt, read_words};
use slab_desk::Desk;
use slab_node::Tally;
use std::alloc::Global;

/// Does all that the program `slabfront` does, and answers the status with which it ends. The words are those after the
/// program's name.
///
/// A run reads the words, the order file, the yard file and the plan file or the cut in this order, searches, stores the certificate and
/// says its text; the first refusal ends it. It creates no file but the certificate's, and that only after the search has ended
/// and when it needs no more memory. It says exactly the text that is owed:
///
/// | Status | Comes |
/// |---|---|
/// | 0 | the Pareto front was found, or a judged plan is legal |
/// | 1 | the words can't stand |
/// | 2 | a file isn't in its grammar, or is longer than 1,048,576 bytes |
/// | 3 | the next split would give a question's tree more nodes than the limit |
/// | 4 | a mill to be solved has no legal plan |
/// | 5 | the outside failed in the last call: the desk's count of faults rose, or stands at its last value; what was stored and said is a beginning of what was to be |
/// | 6 | memory ran out; only that was said, and no file was created |
/// | 7 | the file from which a search is to go on has no good cut |
/// | 8 | a judged plan is illegal |
pub fn run<D: Desk>(alloc: Global, words: &[String], desk: &mut D, tally: &mut Tally) -> u8
    ensures ran { Steps (D.told desk.old) (D.told desk.new)
        (Ran (Owes (map string_bytes words.now) tally.old tally.new) result) }

    // Whether the desk tells or not.
    ensures status { MayEnd (job_of (map string_bytes words.now)) result ⊎
        ((result ≡ 5) ⊎ (result ≡ 6)) }
    ensures unread { Steps (D.told desk.old) (D.told desk.new)
        (LeavesUnread (job_of (map string_bytes words.now))) }
    ensures fault { result ≡ 5 → Rose (D.faults desk.old) (D.faults desk.new) }
    ensures later { D.faults desk.old ≤ D.faults desk.new }
    ensures stopped { (result ≡ 5) ↔ IsTrue (D.stopped desk.new) }
    ensures kept { result ≢ 5 → D.faults desk.new ≡ D.faults desk.old }
    ensures rose { D.faults desk.old < last_count →
        ((result ≡ 5) ↔ (D.faults desk.old < D.faults desk.new)) }
    ensures counters { AreNoLess tally.old tally.new }

    // The order of a run: what reads, writes and says may fail at is the outside's.
    ensures opens { AsksInOrder (job_of (map string_bytes words.now)) (D.told desk.old) result
        (D.named desk.old) (D.named desk.new) }
{
    let job = match read_words(words) {
        Ok(job) => job,
        Err(usage) => return refuse(alloc, usage, desk),
    };
    match answer(alloc, job, desk, tally) {
        Ok(answer) => give(desk, answer),
        Err(Stop::Refused(text)) => say(desk, 2, text.as_str()),
        Err(Stop::Memory) => say(desk, 6, "memory\n"),
        Err(Stop::Fault) => 5,
    }
}

// Says which word can't stand.
fn refuse<D: Desk>(alloc: Global, usage: UsageAt, desk: &mut D) -> u8
    ensures ran { Steps (D.told desk.old) (D.told desk.new)
        (Ran (λ files. Exactly 1 (usage_line usage.word)) result) }
    ensures status { (result ≡ 1) ⊎ ((result ≡ 5) ⊎ (result ≡ 6)) }
    ensures unread { Steps (D.told desk.old) (D.told desk.new) (λ old new. new.left ≡ old.left) }
    ensures ends { EndsByFaults (D.faults desk.old) (D.faults desk.new)
        (D.stopped desk.new) result }
    ensures named { D.named desk.new ≡ D.named desk.old }
{
    match usage_text(alloc, usage) {
        Ok(text) => say(desk, 1, text.as_str()),
        Err(_) => say(desk, 6, "memory\n"),
    }
}

// What a job asks for.
fn answer<'a, D: Desk>(
    alloc: Global,
    job: Job<'a>,
    desk: &mut D,
    tally: &mut Tally,
) -> Result<Answer<'a>, Stop>
    requires { IsInRanges job }
    ensures answer { IfOk result (IsAnswer (OwesOfCommand (command_of job.entry) tally.old
        tally.new) (D.told desk.old)) }
    ensures status { MayAnswer (Ok (command_of job.entry)) result }
    ensures reads { HasOnlyRead (IsStop (OwesOfCommand (command_of job.entry) tally.old tally.new))
        (D.told desk.old) (D.told desk.new) (D.faults desk.old) (D.faults desk.new) result }
    ensures stopped { IsStoppedBy result (D.stopped desk.new) }
    ensures unread { Steps (D.told desk.old) (D.told desk.new)
        (LeavesUnread (Ok (command_of job.entry))) }
    ensures named { HasOpened (IsOpenedFor (command_of job.entry) (D.told desk.old) result)
        (D.named desk.old) (D.named desk.new) }
    ensures counters { AreNoLess tally.old tally.new }
{
    match job {
        Job::Solve {
            orders,
            cert,
            yard,
            nodes,
            colours,
            rounds,
            seed,
        } => {
            let names = MillNames::new(orders, yard, colours);
            let how = SearchNames::new(cert, nodes, rounds, seed);
            solve(alloc, desk, tally, names, how)
        }
        Job::Resume {
            orders,
            cut,
            cert,
            yard,
            nodes,
            colours,
            rounds,
            seed,
        } => {
            let names = MillNames::new(orders, yard, colours);
            let how = SearchNames::new(cert, nodes, rounds, seed);
            resume(alloc, desk, tally, names, cut, how)
        }
        Job::Judge {
            orders,
            plan,
            yard,
            colours,
        } => {
            let names = MillNames::new(orders, yard, colours);
            Ok(Answer::Text(judge(alloc, desk, names, plan)?))
        }
        Job::Make { orders, seed } => Ok(make(alloc, tally, orders, seed)?),
    }
}
