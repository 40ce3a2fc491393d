// Laws of what a run owes.
ghost use Rattle.slab_front.specs.Grammar.{CommandsAreRead, FirstWrongIsTold};
ghost use Rattle.slab_front.specs.Laws.{GoodCutsHaveNoBadLine};

/// A good cut has no bad line: of `resume` the refusal of a cut is owed exactly where the file spells no good one.
pub fn good_cuts_have_no_bad_line()
    ensures { GoodCutsHaveNoBadLine }
{}

/// A command is read exactly from the words of its grammar: its name, its files or numbers in their places, and its options, in any order
/// and each at most once.
pub fn commands_are_read()
    ensures { CommandsAreRead }
{}

/// Words are refused at a word exactly where the words before it begin some command and with it they don't, or the words end
/// there and are no command.
pub fn first_wrong_is_told()
    ensures { FirstWrongIsTold }
{}
