// A run, by the status with which the program ends.
ghost use Rattle.std.specs.Prelude.{◌≡◌, ◌≢◌, ◌⊎◌, ◌↔◌, ◌<◌, ◌≤◌, IsTrue, IfOk, IfErr};
ghost use Rattle.std.specs.Process.{exit_status};
ghost use Rattle.slab_counter.specs.Counter.{Rose, last_count};
ghost use Rattle.slab_desk.specs.Desk.{Steps};
ghost use Rattle.program_start.specs.Statuses.{status_without};
ghost use Rattle.program_start.specs.Words.{words_of};
ghost use Rattle.slab_relax.specs.Tallies.{AreNoLess};
ghost use Rattle.slab_front.specs.Words.{job_of};
ghost use Rattle.slab_front.specs.Outcomes.{Ran};
ghost use Rattle.slab_front.specs.Owed.{Owes, MayEnd, LeavesUnread};
ghost use Rattle.slab_front.specs.Opens.{AsksInOrder};

use crate::usage::{NAME, USAGE};
use program_start::{Begun, NoStart, end_without, tell_usage};
use slab_desk::Desk;
use slab_front::run;
use slab_node::Tally;
use std::alloc::Global;
use std::process::ExitCode;

// Does all that the program does once it has begun, or hasn't, and answers the status with which it ends.
pub(crate) fn ended<F: Drop, D: Desk>(
    alloc: Global,
    rt: &impl Eprint,
    begun: Result<Begun<F>, NoStart>,
    desk: &mut D,
    tally: &mut Tally,
) -> ExitCode
    ensures unstarted { IfErr begun (λ why. exit_status result ≡ status_without why) }
    ensures ran { IfOk begun (λ b. Steps (D.told desk.old) (D.told desk.new)
        (Ran (Owes (words_of b) tally.old tally.new) (exit_status result))) }
    ensures status { IfOk begun (λ b. MayEnd (job_of (words_of b)) (exit_status result)
        ⊎ ((exit_status result ≡ 5) ⊎ (exit_status result ≡ 6))) }
    ensures unread { IfOk begun (λ b. Steps (D.told desk.old) (D.told desk.new) (LeavesUnread (job_of (words_of b)))) }
    ensures fault { IfOk begun (λ _. exit_status result ≡ 5 → Rose (D.faults desk.old) (D.faults desk.new)) }
    ensures later { D.faults desk.old ≤ D.faults desk.new }
    ensures stopped { IfOk begun (λ _. (exit_status result ≡ 5) ↔ IsTrue (D.stopped desk.new)) }
    ensures kept { exit_status result ≢ 5 → D.faults desk.new ≡ D.faults desk.old }
    ensures rose { IfOk begun (λ _. D.faults desk.old < last_count
        → ((exit_status result ≡ 5) ↔ (D.faults desk.old < D.faults desk.new))) }
    ensures counters { AreNoLess tally.old tally.new }
    ensures opens { IfOk begun (λ b. AsksInOrder (job_of (words_of b)) (D.told desk.old) (exit_status result)
        (D.named desk.old) (D.named desk.new)) }
{
    match begun {
        Ok(begun) => {
            let status = run(alloc, &begun.words, desk, tally);
            tell_usage(rt, status, USAGE);
            ExitCode::from(status)
        }
        Err(why) => end_without(rt, NAME, why),
    }
}
