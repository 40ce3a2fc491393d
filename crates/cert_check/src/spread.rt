//! Lines of shares: the code that the line machine calls in a spread.
ghost use Rattle.std.specs.Prelude.{◌≡◌, ◌≢◌, Err, ◌≤◌, OnOk, length, unsigned_abs};
ghost use Rattle.cert_rules.specs.Spreads.{share_of_new, share_of_old, new_share_rules, old_share_rules};
ghost use Rattle.cert_slabs.specs.Answers.{Answers, IsShare, share_of};
ghost use Rattle.cert_check.specs.Sharing.{share_rules, ForShares, Joins};

use cert_rules::Why;
use cert_slabs::{Roster, Tally, read_new_share, read_old_share};
use cert_view::Nums;
use mill_model::{Kind, Mill};
use price_check::Path;

/// Takes a line `cnew`: its share keeps the rules of the line and joins the others, or it breaks one.
pub(crate) fn new_share(
    mill: &Mill,
    path: &Path,
    tally: &mut Tally,
    roster: &mut Roster,
    numbers: &Nums<'_>,
) -> Result<(), Why>
    requires count { 3 ≤ length numbers.now }
    requires path { path.now.orders ≡ length mill.now.orders }
    requires orders { length tally.old.covered ≡ length mill.now.orders }
    requires slabs { length tally.old.used ≡ length mill.now.yard }
    ensures rules { ForShares mill.now tally.old (λ shares. Answers
        (new_share_rules mill.now path.now.decisions (unsigned_abs tally.old.d) shares numbers.now)
        result) }
    ensures tally { OnOk result
        (Joins mill.now tally.old tally.new (share_of_new numbers.now)) }
    ensures orders { length tally.new.covered ≡ length mill.now.orders }
    ensures slabs { length tally.new.used ≡ length mill.now.yard }
    ensures other { result ≢ Err Why.Column }
{
    match read_new_share(mill, roster, numbers) {
        Err(why) => Err(why),
        Ok((times, kind)) => add_share(mill, path, tally, roster, times, kind),
    }
}

/// Takes a line `cold`: its share keeps the rules of the line and joins the others, or it breaks one.
pub(crate) fn old_share(
    mill: &Mill,
    path: &Path,
    tally: &mut Tally,
    roster: &mut Roster,
    numbers: &Nums<'_>,
) -> Result<(), Why>
    requires count { 3 ≤ length numbers.now }
    requires path { path.now.orders ≡ length mill.now.orders }
    requires orders { length tally.old.covered ≡ length mill.now.orders }
    requires slabs { length tally.old.used ≡ length mill.now.yard }
    ensures rules { ForShares mill.now tally.old (λ shares. Answers
        (old_share_rules mill.now path.now.decisions (unsigned_abs tally.old.d) shares numbers.now)
        result) }
    ensures tally { OnOk result
        (Joins mill.now tally.old tally.new (share_of_old numbers.now)) }
    ensures orders { length tally.new.covered ≡ length mill.now.orders }
    ensures slabs { length tally.new.used ≡ length mill.now.yard }
    ensures other { result ≢ Err Why.Column }
{
    match read_old_share(mill, roster, numbers) {
        Err(why) => Err(why),
        Ok((times, kind)) => add_share(mill, path, tally, roster, times, kind),
    }
}

// Adds the share that was read last, if it agrees with the path and covers nothing too often.
fn add_share(
    mill: &Mill,
    path: &Path,
    tally: &mut Tally,
    roster: &Roster,
    times: u64,
    kind: Kind,
) -> Result<(), Why>
    requires read { IsShare mill.now times kind roster.now }
    requires path { path.now.orders ≡ length mill.now.orders }
    requires orders { length tally.old.covered ≡ length mill.now.orders }
    requires slabs { length tally.old.used ≡ length mill.now.yard }
    ensures rules { ForShares mill.now tally.old (λ shares. Answers
        (share_rules mill.now path.now.decisions (unsigned_abs tally.old.d) shares
        (share_of times kind roster.now)) result) }
    ensures tally { OnOk result
        (Joins mill.now tally.old tally.new (share_of times kind roster.now)) }
    ensures orders { length tally.new.covered ≡ length mill.now.orders }
    ensures slabs { length tally.new.used ≡ length mill.now.yard }
    ensures other { result ≢ Err Why.Column }
{
    if !path.agrees(kind, roster.orders()) {
        return Err(Why::Agree);
    }
    if !tally.add(mill, times, kind, roster.orders()) {
        return Err(Why::Cover);
    }
    Ok(())
}
