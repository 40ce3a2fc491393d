//! What is read is in the grammar, what is in the grammar is read, and what isn't is refused for its first offence. Each law is
//! the contract of a function that does nothing.
ghost use Rattle.mill_read.specs.OrderFile.{OrderFilesSpellMills};
ghost use Rattle.mill_read.specs.YardFile.{YardFilesSpellYards};
ghost use Rattle.mill_read.specs.PlanFile.{PlanFilesSpellPlans};
ghost use Rattle.mill_read.specs.Offences.{OrderFilesAreRefusedForFirstOffences, YardFilesAreRefusedForFirstOffences, PlanFilesAreRefusedForFirstOffences};

/// An order file gives a mill exactly where its words spell the mill's numbers, within their limits.
pub fn order_files_spell_mills()
    ensures { OrderFilesSpellMills }
{}

/// A yard file gives a yard exactly where its words spell the sizes and the bars, within their limits.
pub fn yard_files_spell_yards()
    ensures { YardFilesSpellYards }
{}

/// A plan file gives a plan exactly where its words spell it, with a place for each order, and its numbers are in range.
pub fn plan_files_spell_plans()
    ensures { PlanFilesSpellPlans }
{}

/// An order file is refused at a word exactly where the words before that one begin some order file and with it they don't
/// (or the text ends there, and is no order file), and for the rule that the word breaks.
pub fn order_files_are_refused_for_first_offences()
    ensures { OrderFilesAreRefusedForFirstOffences }
{}

/// A yard file is refused at a word exactly where the words before that one can stand and with it they can't (or the text ends
/// there, and is no yard file), and for the rule that the word breaks. Words can stand that begin some yard file for so many
/// orders; and those that announce bars where there is no order or no surplus slab, up to the place that no number can take.
pub fn yard_files_are_refused_for_first_offences()
    ensures { YardFilesAreRefusedForFirstOffences }
{}

/// A plan file is refused at a word exactly where the words before that one begin some plan file for so many orders and with it
/// they don't (or the text ends there, and is no such file), and for the rule that the word breaks.
pub fn plan_files_are_refused_for_first_offences()
    ensures { PlanFilesAreRefusedForFirstOffences }
{}
