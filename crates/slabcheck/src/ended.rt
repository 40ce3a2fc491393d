// A run, by the status with which the program ends.
ghost use Rattle.std.specs.Prelude.{◌≡◌, ◌≢◌, ◌⊎◌, ◌↔◌, ◌<◌, ◌≤◌, IsTrue, IfOk, IfErr};
ghost use Rattle.std.specs.Process.{exit_status};
ghost use Rattle.slab_counter.specs.Counter.{Rose, last_count};
ghost use Rattle.slab_desk.specs.Desk.{Steps};
ghost use Rattle.program_start.specs.Statuses.{status_without};
ghost use Rattle.program_start.specs.Words.{words_of};
ghost use Rattle.run_words.specs.Opens.{HasOpened};
ghost use Rattle.front_check.specs.Opens.{OpensInOrder};
ghost use Rattle.front_check.specs.Words.{check_words};
ghost use Rattle.front_check.specs.Outcomes.{Ran};
ghost use Rattle.front_check.specs.Owed.{Owes, MayEnd};
ghost use Rattle.front_check.specs.Endings.{LeavesRest};

use crate::usage::{NAME, USAGE};
use front_check::check_run;
use program_start::{Begun, NoStart, end_without, tell_usage};
use slab_desk::Desk;
use std::alloc::Global;
use std::process::ExitCode;

// Does all that the program does once it has begun, or hasn't, and answers the status with which it ends.
pub(crate) fn ended<F: Drop, D: Desk>(
    alloc: Global,
    rt: &impl Eprint,
    begun: Result<Begun<F>, NoStart>,
    desk: &mut D,
) -> ExitCode
    ensures unstarted { IfErr begun (λ why. exit_status result ≡ status_without why) }
    ensures ran { IfOk begun (λ b. Steps (D.told desk.old) (D.told desk.new) (Ran (Owes (words_of b)) (exit_status result))) }
    ensures rest { IfOk begun (λ b. Steps (D.told desk.old) (D.told desk.new)
        (LeavesRest (check_words (words_of b)) (exit_status result))) }
    ensures status { IfOk begun (λ b. MayEnd (check_words (words_of b)) (exit_status result)
        ⊎ ((exit_status result ≡ 5) ⊎ (exit_status result ≡ 6))) }
    ensures fault { IfOk begun (λ _. exit_status result ≡ 5 → Rose (D.faults desk.old) (D.faults desk.new)) }
    ensures later { D.faults desk.old ≤ D.faults desk.new }
    ensures stopped { IfOk begun (λ _. (exit_status result ≡ 5) ↔ IsTrue (D.stopped desk.new)) }
    ensures kept { exit_status result ≢ 5 → D.faults desk.new ≡ D.faults desk.old }
    ensures rose { IfOk begun (λ _. D.faults desk.old < last_count
        → ((exit_status result ≡ 5) ↔ (D.faults desk.old < D.faults desk.new))) }
    ensures opens { IfOk begun (λ b. HasOpened (OpensInOrder (check_words (words_of b)) (D.told desk.old) (exit_status result))
        (D.named desk.old) (D.named desk.new)) }
{
    match begun {
        Ok(begun) => {
            let status = check_run(alloc, &begun.words, desk);
            tell_usage(rt, status, USAGE);
            ExitCode::from(status)
        }
        Err(why) => end_without(rt, NAME, why),
    }
}
