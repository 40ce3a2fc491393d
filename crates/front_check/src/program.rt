// A whole run, from its words to its status.
ghost use Rattle.std.specs.Prelude.{◌≡◌, ◌≢◌, ◌⊎◌, ◌↔◌, ◌<◌, ◌≤◌, IsTrue, false, Ok, map, length, IfOk};
ghost use Rattle.std.specs.String.{string_bytes};
ghost use Rattle.slab_counter.specs.Counter.{Rose, last_count};
ghost use Rattle.slab_desk.specs.Desk.{Steps};
ghost use Rattle.mill_model.specs.Mill.{IsBetween, most_colour_limit};
ghost use Rattle.run_words.specs.Texts.{usage_text as usage_line};
ghost use Rattle.run_words.specs.Ends.{EndsByFaults};
ghost use Rattle.run_words.specs.Opens.{HasOpened};
ghost use Rattle.front_check.specs.Jobs.{words_of, named_check, IsInRange};
ghost use Rattle.front_check.specs.Words.{check_words};
ghost use Rattle.front_check.specs.Outcomes.{Ran};
ghost use Rattle.front_check.specs.Owed.{Owes, OwesOfCheck, Exactly, MayEnd, IsVerdictStatus};
ghost use Rattle.front_check.specs.Endings.{HasOnlyRead, Finishes, IsEnding, IsStop, is_fault, LeavesRest};
ghost use Rattle.front_check.specs.Opens.{OpensInOrder, IsOpenedFor};

use crate::ending::{Ending, Stop};
use crate::files::read_mill;
use crate::reading::read_certificate;
use crate::texts::usage_text;
use crate::verdict::said;
use crate::words::{CheckJob, CheckUsage, read_check_words};
use slab_desk::{Desk, say_all};
use std::alloc::Global;

/// Does all that the program `slabcheck` does, and answers the status with which it ends. The words are those after the
/// program's name.
///
/// A run reads the words, the order file, the yard file and the certificate in this order, and the first refusal ends it. The
/// certificate may have any length: it is read in pieces, and no further than 8,192 bytes after its first bad line. No file is
/// created. A run says exactly the text that is owed:
///
/// | Status | Comes |
/// |---|---|
/// | 0 | the certificate is good and whole: its points are the Pareto front |
/// | 1 | the words can't stand |
/// | 2 | the order file or the yard file isn't in its grammar, or is longer than 1,048,576 bytes |
/// | 3 | the certificate is a good cut: each of its points but the last is on the Pareto front, and the last has the least loss of the plans with fewer new slabs than the point before |
/// | 4 | the certificate is good and whole and has no point: no plan is legal |
/// | 5 | the outside failed in the last call: the desk's count of faults rose, or stands at its last value; what was said is a beginning of what was to be |
/// | 6 | memory ran out; only that was said |
/// | 7 | the certificate isn't good: its first bad line, and the rule that it breaks |
pub fn check_run<D: Desk>(alloc: Global, words: &[String], desk: &mut D) -> u8
    ensures ran { Steps (D.told desk.old) (D.told desk.new) (Ran (Owes (map string_bytes words.now)) result) }
    ensures rest { Steps (D.told desk.old) (D.told desk.new) (LeavesRest (check_words (map string_bytes words.now)) result) }

    // Whether the desk tells or not.
    ensures status { MayEnd (check_words (map string_bytes words.now)) result ⊎ ((result ≡ 5) ⊎ (result ≡ 6)) }
    ensures fault { result ≡ 5 → Rose (D.faults desk.old) (D.faults desk.new) }
    ensures later { D.faults desk.old ≤ D.faults desk.new }
    ensures stopped { (result ≡ 5) ↔ IsTrue (D.stopped desk.new) }
    ensures kept { result ≢ 5 → D.faults desk.new ≡ D.faults desk.old }
    ensures rose { D.faults desk.old < last_count → ((result ≡ 5) ↔ (D.faults desk.old < D.faults desk.new)) }
    ensures opens { HasOpened (OpensInOrder (check_words (map string_bytes words.now)) (D.told desk.old) result)
        (D.named desk.old) (D.named desk.new) }
{
    let job = match read_check_words(words) {
        Ok(job) => job,
        Err(usage) => return refuse(alloc, usage, desk),
    };
    match answer(alloc, job, desk) {
        Ok(ending) => say(desk, ending.status, ending.text.as_str()),
        Err(Stop::Refused(text)) => say(desk, 2, text.as_str()),
        Err(Stop::Memory) => say(desk, 6, "memory\n"),
        Err(Stop::Fault) => 5,
    }
}

// Says which word can't stand.
fn refuse<D: Desk>(alloc: Global, usage: CheckUsage, desk: &mut D) -> u8
    ensures ran { Steps (D.told desk.old) (D.told desk.new) (Ran (λ files. Exactly 1 (usage_line usage.word)) result) }
    ensures status { (result ≡ 1) ⊎ ((result ≡ 5) ⊎ (result ≡ 6)) }
    ensures unread { Steps (D.told desk.old) (D.told desk.new) (λ old new. new.left ≡ old.left) }
    ensures ends { EndsByFaults (D.faults desk.old) (D.faults desk.new) (D.stopped desk.new) result }
    ensures named { D.named desk.new ≡ D.named desk.old }
{
    match usage_text(alloc, usage) {
        Ok(text) => say(desk, 1, text.as_str()),
        Err(_) => say(desk, 6, "memory\n"),
    }
}

// What a job asks for.
fn answer<D: Desk>(alloc: Global, job: CheckJob<'_>, desk: &mut D) -> Result<Ending, Stop>
    requires { IsInRange job }
    ensures ending { IfOk result (IsEnding (OwesOfCheck (words_of job.entry)) (D.told desk.old)) }
    ensures status { IfOk result (λ ending. IsVerdictStatus ending.status) }
    ensures rest { IfOk result (λ ending. Steps (D.told desk.old) (D.told desk.new) (LeavesRest (Ok (words_of job.entry)) ending.status)) }
    ensures reads { HasOnlyRead (IsStop (OwesOfCheck (words_of job.entry)))
        (D.told desk.old) (D.told desk.new) (D.faults desk.old) (D.faults desk.new) result }
    ensures stopped { D.stopped desk.new ≡ is_fault result }
    ensures named { HasOpened (IsOpenedFor (words_of job.entry) (D.told desk.old) result) (D.named desk.old) (D.named desk.new) }
{
    match job {
        CheckJob::Check {
            orders,
            cert,
            yard,
            colours,
        } => checked(alloc, desk, orders, cert, yard, colours),
    }
}

// What a certificate shows of a mill.
fn checked<D: Desk>(
    alloc: Global,
    desk: &mut D,
    orders: &str,
    cert: &str,
    yard: Option<&str>,
    colours: u16,
) -> Result<Ending, Stop>
    requires { IsBetween 1 most_colour_limit colours }
    ensures ending { IfOk result (IsEnding (OwesOfCheck (named_check orders.entry cert.entry yard.entry colours)) (D.told desk.old)) }
    ensures status { IfOk result (λ ending. IsVerdictStatus ending.status) }
    ensures rest { IfOk result (λ ending. Steps (D.told desk.old) (D.told desk.new)
        (LeavesRest (Ok (named_check orders.entry cert.entry yard.entry colours)) ending.status)) }
    ensures reads { HasOnlyRead (IsStop (OwesOfCheck (named_check orders.entry cert.entry yard.entry colours)))
        (D.told desk.old) (D.told desk.new) (D.faults desk.old) (D.faults desk.new) result }
    ensures stopped { D.stopped desk.new ≡ is_fault result }
    ensures named { HasOpened (IsOpenedFor (named_check orders.entry cert.entry yard.entry colours) (D.told desk.old) result)
        (D.named desk.old) (D.named desk.new) }
{
    let mill = read_mill(alloc, desk, orders, yard, colours)?;
    let verdict = read_certificate(alloc, desk, &mill, cert)?;
    Ok(said(alloc, &verdict)?)
}

// Says a text, and answers its status, or 5 where the outside fails. The last call of the desk didn't fail, or there is
// something to say.
fn say<D: Desk>(desk: &mut D, status: u8, text: &str) -> u8
    requires status { status ≢ 5 }
    requires calls { (D.stopped desk.old ≡ false) ⊎ (0 < length text.now) }
    ensures finishes { Finishes status text.now (D.told desk.old) (D.told desk.new) result }
    ensures ends { EndsByFaults (D.faults desk.old) (D.faults desk.new) (D.stopped desk.new) result }
    ensures named { D.named desk.new ≡ D.named desk.old }
{
    match say_all(desk, text.as_bytes()) {
        Ok(()) => status,
        Err(_) => 5,
    }
}
