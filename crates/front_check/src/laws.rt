//! Laws of a check.
ghost use Rattle.front_check.specs.Grammar.{ChecksAreRead, FirstWrongOfCheckIsTold};
ghost use Rattle.front_check.specs.Laws.{OneAnswer};

/// The words and the files leave one status, with one text: each status comes exactly where its own cause holds.
pub fn one_answer()
    ensures { OneAnswer }
{}

/// A check is read exactly from the words of its grammar: its name, its files or numbers in their places,
/// and its options, in any order and each at most once.
pub fn checks_are_read()
    ensures { ChecksAreRead }
{}

/// Words are refused at a word exactly where the words before it begin some command and with it they don't, or the words end
/// there and are no command.
pub fn first_wrong_of_check_is_told()
    ensures { FirstWrongOfCheckIsTold }
{}
