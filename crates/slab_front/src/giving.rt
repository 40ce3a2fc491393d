// What is stored and said at the end of a run. It takes no memory.
ghost use Rattle.std.specs.Prelude.{◌≡◌, ◌≢◌, ◌⊎◌, ◌<◌, false, [], Some, Ok, length, is_err, OnOk, OnErr};
ghost use Rattle.slab_desk.specs.Causes.{HasCause};
ghost use Rattle.slab_desk.specs.Desk.{Steps, Says, WithPrefix};
ghost use Rattle.slab_desk.specs.Names.{with_created};
ghost use Rattle.cert_text.specs.Texts.{certificate_text};
ghost use Rattle.run_words.specs.Ends.{EndsByFaults};
ghost use Rattle.slab_front.specs.Outcomes.{Gives, SaysOnly, BeginsToStore, saying, storing};
ghost use Rattle.slab_front.specs.Owed.{stored_as, summed_up};
ghost use Rattle.slab_front.specs.Searched.{certificate_of, status_of};
ghost use Rattle.slab_front.specs.Endings.{Finishes, IsStoppedBy, status_for, outcome_for};
ghost use Rattle.slab_front.specs.Opens.{names_for};

use crate::ending::Answer;
use crate::search::Search;
use cert_write::write_cert;
use mill_model::Mill;
use mill_report::{say_report, say_summary};
use slab_desk::{Desk, Failed, say_all};

/// Stores and says what is left to be stored and said, and answers the status, or 5 where the outside fails.
pub fn give<D: Desk>(desk: &mut D, answer: Answer<'_>) -> u8
    requires status { status_for answer ≢ 5 }
    requires calls { IsStoppedBy (Ok answer) (D.stopped desk.old) }
    ensures finishes { Finishes (status_for answer.entry) (outcome_for answer.entry)
        (D.told desk.old) (D.told desk.new) result }
    ensures ends { EndsByFaults (D.faults desk.old) (D.faults desk.new)
        (D.stopped desk.new) result }
    ensures named { D.named desk.new ≡ names_for answer.entry (D.named desk.old) }
{
    match answer {
        Answer::Text(ending) => say(desk, ending.status, ending.text.as_str()),
        Answer::Stored(name, mill, search) => store_and_say(desk, name, &mill, &search),
        Answer::SummedUp(mill, search) => sum_up(desk, &mill, &search),
    }
}

/// Says a text, and answers its status, or 5 where the outside fails. The last call of the desk didn't fail, or there is
/// something to say.
pub fn say<D: Desk>(desk: &mut D, status: u8, text: &str) -> u8
    requires status { status ≢ 5 }
    requires calls { (D.stopped desk.old ≡ false) ⊎ (0 < length text.now) }
    ensures finishes { Finishes status (saying text.now)
        (D.told desk.old) (D.told desk.new) result }
    ensures ends { EndsByFaults (D.faults desk.old) (D.faults desk.new)
        (D.stopped desk.new) result }
    ensures named { D.named desk.new ≡ D.named desk.old }
{
    match say_all(desk, text.as_bytes()) {
        Ok(()) => status,
        Err(_) => 5,
    }
}

// Stores the certificate of a search in a new file, and says its report.
fn store_and_say<D: Desk>(desk: &mut D, name: &str, mill: &Mill, search: &Search) -> u8
    ensures finishes { Finishes (status_of search.now) (stored_as name.now mill.now search.now)
        (D.told desk.old) (D.told desk.new) result }
    ensures ends { EndsByFaults (D.faults desk.old) (D.faults desk.new)
        (D.stopped desk.new) result }
    ensures named { D.named desk.new ≡ with_created name.now (D.named desk.old) }
{
    if store(desk, name, mill, search).is_err() {
        return 5;
    }
    match say_report(
        search.head(),
        search.opened(),
        search.bare(),
        search.word(),
        desk,
    ) {
        Ok(()) => search.status(),
        Err(_) => 5,
    }
}

// Stores the certificate of a search in a new file.
fn store<D: Desk>(desk: &mut D, name: &str, mill: &Mill, search: &Search) -> Result<(), Failed>
    ensures stores { OnOk result (Steps (D.told desk.old) (D.told desk.new)
        (Gives (storing name.now (certificate_text (certificate_of search.now))))) }
    ensures begins { OnErr result (Steps (D.told desk.old) (D.told desk.new)
        (λ old new. SaysOnly [] old new ⊎ BeginsToStore
        (Some (name.now, certificate_text (certificate_of search.now))) old new)) }
    ensures unread { Steps (D.told desk.old) (D.told desk.new) (λ old new. new.left ≡ old.left) }
    ensures cause { HasCause (D.faults desk.old) (D.faults desk.new) result }
    ensures stopped { D.stopped desk.new ≡ is_err result }
    ensures named { D.named desk.new ≡ with_created name.now (D.named desk.old) }
{
    desk.create_file(name)?;
    write_cert(mill, search.stored(), desk)
}

// Says the summary of a search.
fn sum_up<D: Desk>(desk: &mut D, mill: &Mill, search: &Search) -> u8
    ensures finishes { Finishes (status_of search.now) (summed_up mill.now search.now)
        (D.told desk.old) (D.told desk.new) result }
    ensures ends { EndsByFaults (D.faults desk.old) (D.faults desk.new)
        (D.stopped desk.new) result }
    ensures named { D.named desk.new ≡ D.named desk.old }
{
    match say_summary(
        mill,
        search.head(),
        search.opened(),
        search.bare(),
        search.word(),
        desk,
    ) {
        Ok(()) => search.status(),
        Err(_) => 5,
    }
}
