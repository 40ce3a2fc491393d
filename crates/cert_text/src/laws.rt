//! Laws of certificates and their texts.
ghost use Rattle.cert_text.specs.Laws.{EachShowsOne, GoodLinesAreRead, NoProperPrefix, OneCertificate, ShownCoversHaveShares, TreesAreListed, WhatIsShownHolds, WorkedTexts};

/// A good certificate shows exactly one of three things: a front, that there is no plan, or that it was cut off.
pub fn each_shows_one()
    ensures { EachShowsOne }
{}

/// The points of a certificate that shows a front are the Pareto front, and where one shows no plan, no plan is legal.
pub fn what_is_shown_holds()
    ensures { WhatIsShownHolds }
{}

/// A cover that a question of a marked tree shows has a share, since each order is covered.
pub fn shown_covers_have_shares()
    ensures { ShownCoversHaveShares }
{}

/// The lines of a marked tree are those of its steps and marks.
pub fn trees_are_listed()
    ensures { TreesAreListed }
{}

/// Each line of a good certificate is one that is read: it has the count of numbers that its form wants, each in the range,
/// and at most 8,192 bytes with its line feed.
pub fn good_lines_are_read()
    ensures { GoodLinesAreRead }
{}

/// For one mill, bytes spell at most one good certificate.
pub fn one_certificate()
    ensures { OneCertificate }
{}

/// For one mill, no good certificate's text is a proper prefix of another's: a truncated good certificate is never good.
pub fn no_proper_prefix()
    ensures { NoProperPrefix }
{}

/// The texts of two certificates in full, which a reader of the format can check by hand.
pub fn worked_texts()
    ensures { WorkedTexts }
{}
