//! Laws that join lines and texts, for the crates that write certificates and check them.
ghost use Rattle.cert_view.specs.Laws.{ReadIsText, TextIsRead, TextIsShort, WholeIsFirst, WholeIsText};

/// A line's text with its line feed is read as the line, whatever follows, and the view then stands after it.
pub fn text_is_read()
    ensures { TextIsRead }
{}

/// A line is read only where its text with its line feed stands.
pub fn read_is_text()
    ensures { ReadIsText }
{}

/// The text of a line has at most 21 bytes a number and 11 besides, so that a line of at most 389 numbers is short enough.
pub fn text_is_short()
    ensures { TextIsShort }
{}

/// A whole line that a buffer holds is read as it would be at the front of any bytes.
pub fn whole_is_first()
    ensures { WholeIsFirst }
{}

/// A whole line that a buffer holds and that is read is the line's text with its line feed, and no byte more.
pub fn whole_is_text()
    ensures { WholeIsText }
{}
