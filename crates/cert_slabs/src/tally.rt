//! A spread while its shares are read.
ghost use Rattle.std.specs.Prelude.{◌≡◌, ◌≢◌, Err, ◌≤◌, ◌<◌, ◌*◌, ◌+◌, ◌^◌, ◌↔◌, ◌++◌, ◌∷◌, [], ℕ, pos, ◌≤ℤ◌, true, List, IfOk, OnOk, IsTrue, IfErr, cond, eqb, length, sum, slice_index, unsigned_abs};
ghost use Rattle.std.specs.Bool.{OnTrue};
ghost use Rattle.mill_model.specs.Columns.{Rises, has, is_old};
ghost use Rattle.mill_model.specs.Plans.{is_new};
ghost use Rattle.mill_model.specs.Shares.{Share};
ghost use Rattle.mill_model.specs.Limits.{AtMost};
ghost use Rattle.mill_model.specs.Covers.{times};
ghost use Rattle.cert_rules.specs.Numbers.{number_at};
ghost use Rattle.cert_rules.specs.Spreads.{share_of_new, share_of_old, spread_rules, cover_rules};
ghost use Rattle.cert_slabs.specs.Answers.{Answers, IsRead, IsShare, share_of, new_share_front, old_share_front};
ghost use Rattle.cert_slabs.specs.Tallies.{AreFair, AreWithin, IsAdded, IsFair, IsTally, StayWithin};

use crate::roster::Roster;
use crate::slab::{listed_size, load_of, named_slab, test_slab};
use cert_rules::Why;
use cert_view::Nums;
use mill_model::{Kind, Limits, Mill};
use std::alloc::{AllocError, Global};
use std::marker::Model;

/// The denominator of a spread, and sums over its shares so far: how often each order is covered and each surplus slab used,
/// and the losses and the new slabs, each times its multiplier.
#[derive(Drop)]
pub struct Tally {
    // at most 2^62
    d: u64,
    begun: bool,
    // Each grows by a multiplier of at most 2^62 and is then tested against d, so it stays below 2^63.
    covered: Vec<u64>,
    used: Vec<u64>,
    // Every share covers an order, and each of 250 orders is covered at most d times. So the multipliers sum to at most
    // 250 d, and since a slab loses less than 2^16, the two sums stay below 2^86.
    lost: u128,
    opened: u128,
}

impl Model for Tally {
    ghost use Rattle.std.specs.Prelude.{pos};
    ghost use Rattle.cert_slabs.specs.Tallies.{Tally, IsTallied};

    ghost Value = { Tally };

    ghost view = { λ t. record { d = pos t.d; begun = t.begun; covered = t.covered.items; used = t.used.items; lost = t.lost; opened = t.opened } };

    ghost invariant = { λ t. IsTallied t.d t.covered.items t.used.items t.lost t.opened };
}

impl Tally {
    /// No share, over the denominator 1, and the memory for any spread of the mill.
    pub fn new(alloc: Global, mill: &Mill) -> Result<Tally, AllocError>
        ensures orders { IfOk result (λ t. length t.covered ≡ length mill.now.orders) }
        ensures slabs { IfOk result (λ t. length t.used ≡ length mill.now.yard) }
    {
        let covered = vec![in alloc; 0; mill.orders().len()]?;
        let used = vec![in alloc; 0; mill.yard().len()]?;
        Ok(Tally {
            d: 1,
            begun: false,
            covered,
            used,
            lost: 0,
            opened: 0,
        })
    }

    /// Takes a line `spread`: its number is the denominator of the shares that follow, of which there is none yet, or it breaks
    /// a rule.
    pub fn start(&mut self, numbers: &Nums<'_>) -> Result<(), Why>
        requires { 1 ≤ length numbers.now }
        ensures rules { Answers (spread_rules numbers.now) result }
        ensures tally { OnOk result ((m : Mill) → IsTally m (number_at numbers.now 0) [] self.new) }
        ensures orders { length self.new.covered ≡ length self.old.covered }
        ensures slabs { length self.new.used ≡ length self.old.used }
        ensures other { result ≢ Err Why.Column }
    {
        let d = numbers.get(0);
        if d < 1 {
            return Err(Why::Range);
        }
        self.d = d as u64;
        self.begun = false;
        clear(&mut self.covered);
        clear(&mut self.used);
        self.lost = 0;
        self.opened = 0;
        Ok(())
    }

    /// Adds a share, unless an order or a surplus slab is then covered too often.
    pub fn add(&mut self, mill: &Mill, times: u64, kind: Kind, orders: &[u16]) -> bool
        requires share { IsShare mill.now times kind orders.now }
        requires orders { length self.old.covered ≡ length mill.now.orders }
        requires slabs { length self.old.used ≡ length mill.now.yard }
        ensures cover { (shares : List Share) → IsTally mill.now self.old.d shares self.old →
            (IsTrue result ↔ StayWithin mill.now (unsigned_abs self.old.d)
            (shares ++ share_of times kind orders.now ∷ []) kind) }
        ensures tally { OnTrue result ((shares : List Share) →
            IsTally mill.now self.old.d shares self.old →
            IsTally mill.now self.old.d (shares ++ share_of times kind orders.now ∷ []) self.new) }
        ensures orders { length self.new.covered ≡ length self.old.covered }
        ensures slabs { length self.new.used ≡ length self.old.used }
    {
        let loss = u32::from(mill.size_of(kind)).saturating_sub(load_of(mill, orders));
        if !cover(&mut self.covered, orders, times, self.d) {
            return false;
        }
        if !use_kind(&mut self.used, kind, times, self.d) {
            return false;
        }
        self.opened += opened_by(kind, times);
        self.lost += lost_by(loss, times);
        self.begun = true;
        true
    }

    /// Tests the spread where it ends: it covers each order, and stays within the limits.
    pub fn test_cover(&self, limits: Limits) -> Result<(), Why>
        requires { AreFair limits }
        ensures rules { (m : Mill) (shares : List Share) →
            length self.now.covered ≡ length m.orders → IsTally m self.now.d shares self.now →
            Answers (cover_rules m limits (unsigned_abs self.now.d) shares) result }
        ensures other { result ≢ Err Why.Column }
    {
        if !are_all(&self.covered, self.d) {
            return Err(Why::Cover);
        }
        if !is_within(self.lost, self.d, limits.loss) {
            return Err(Why::Loss);
        }
        if !is_within(self.opened, self.d, limits.count) {
            return Err(Why::New);
        }
        Ok(())
    }

    /// Whether there is a share.
    pub fn has_begun(&self) -> bool
        ensures { result ≡ self.now.begun }
    {
        self.begun
    }
}

/// Reads a line `cnew`: its multiplier and its slab, with its orders in the roster, or the first rule that it breaks of those
/// that speak of its column alone.
pub fn read_new_share(
    mill: &Mill,
    roster: &mut Roster,
    numbers: &Nums<'_>,
) -> Result<(u64, Kind), Why>
    requires { 3 ≤ length numbers.now }
    ensures rules { Answers (new_share_front mill.now numbers.now) result }
    ensures read { IfOk result (λ r.
        IsRead mill.now (share_of_new numbers.now) r.0 r.1 roster.new) }
    ensures other { result ≢ Err Why.Column }
{
    let times = numbers.get(0);
    if times < 1 {
        return Err(Why::Range);
    }
    let Some(size) = listed_size(mill, numbers.get(1)) else {
        return Err(Why::Size);
    };
    let kind = Kind::New(size);
    if !roster.read(mill, 2, numbers) {
        return Err(Why::Place);
    }
    test_slab(mill, kind, roster.orders())?;
    Ok((times as u64, kind))
}

/// Reads a line `cold`: its multiplier and its slab, with its orders in the roster, or the first rule that it breaks of those
/// that speak of its column alone.
pub fn read_old_share(
    mill: &Mill,
    roster: &mut Roster,
    numbers: &Nums<'_>,
) -> Result<(u64, Kind), Why>
    requires { 3 ≤ length numbers.now }
    ensures rules { Answers (old_share_front mill.now numbers.now) result }
    ensures read { IfOk result (λ r.
        IsRead mill.now (share_of_old numbers.now) r.0 r.1 roster.new) }
    ensures other { result ≢ Err Why.Column }
{
    let times = numbers.get(0);
    if times < 1 {
        return Err(Why::Range);
    }
    let Some(slab) = named_slab(mill, numbers.get(1)) else {
        return Err(Why::Yard);
    };
    let kind = Kind::Old(slab);
    if !roster.read(mill, 2, numbers) {
        return Err(Why::Place);
    }
    test_slab(mill, kind, roster.orders())?;
    Ok((times as u64, kind))
}

// Makes all sums 0.
fn clear(sums: &mut [u64])
    ensures { (i : ℕ) → slice_index sums.new i ≡ 0 }
{
    for sum in sums.iter_mut() {
        *sum = 0;
    }
}

// Covers orders so many times more, as long as none is covered too often.
fn cover(covered: &mut [u64], orders: &[u16], times: u64, most: u64) -> bool
    requires rise { Rises 0 (length covered.old) orders.now }
    requires times { times ≤ 2 ^ 62 }
    requires most { most ≤ 2 ^ 62 }
    requires within { AreWithin most covered.old }
    ensures fits { IsTrue result ↔
        ((o : ℕ) → has orders.now o ≡ true → slice_index covered.old o + times ≤ most) }
    ensures added { OnTrue result (IsAdded covered.old covered.new orders.now times) }
    ensures sums { OnTrue result (sum covered.new ≡ sum covered.old + times * length orders.now) }
    ensures within { AreWithin most covered.new }
    ensures more { sum covered.old ≤ sum covered.new }
{
    for order in orders {
        let place = usize::from(*order);
        let sum = covered[place] + times;
        if sum > most {
            return false;
        }
        covered[place] = sum;
    }
    true
}

// Uses the slab of a share so many times more, if it is a surplus slab, unless it is then used too often.
fn use_kind(used: &mut [u64], kind: Kind, times: u64, most: u64) -> bool
    requires stock { (s : ℕ) → kind ≡ Kind.Old s → s < length used.old }
    requires times { times ≤ 2 ^ 62 }
    requires most { most ≤ 2 ^ 62 }
    requires within { AreWithin most used.old }
    ensures fits { IsTrue result ↔
        ((s : ℕ) → is_old s kind ≡ true → slice_index used.old s + times ≤ most) }
    ensures added { OnTrue result ((s : ℕ) → s < length used.old →
        slice_index used.new s ≡ slice_index used.old s + cond (is_old s kind) times 0) }
    ensures within { AreWithin most used.new }
{
    match kind {
        Kind::New(_) => true,
        Kind::Old(slab) => use_slab(used, slab, times, most),
    }
}

// Uses a surplus slab so many times more, unless it is then used too often.
fn use_slab(used: &mut [u64], slab: u16, times: u64, most: u64) -> bool
    requires slab { slab < length used.old }
    requires times { times ≤ 2 ^ 62 }
    requires most { most ≤ 2 ^ 62 }
    requires within { AreWithin most used.old }
    ensures fits { IsTrue result ↔ (slice_index used.old slab + times ≤ most) }
    ensures added { OnTrue result ((s : ℕ) → s < length used.old →
        slice_index used.new s ≡ slice_index used.old s + cond (eqb slab s) times 0) }
    ensures within { AreWithin most used.new }
{
    let place = usize::from(slab);
    let sum = used[place] + times;
    if sum > most {
        return false;
    }
    used[place] = sum;
    true
}

// The multiplier of a share of a new slab, else 0.
fn opened_by(kind: Kind, times: u64) -> u128
    ensures { result ≡ cond (is_new kind) times 0 }
{
    match kind {
        Kind::New(_) => u128::from(times),
        Kind::Old(_) => 0,
    }
}

// What a share loses.
fn lost_by(loss: u32, times: u64) -> u128
    requires { loss < 2 ^ 16 }
    ensures value { result ≡ times * loss }
    ensures small { result ≤ 65535 * times }
{
    u128::from(times) * u128::from(loss)
}

// Whether all are this number.
fn are_all(sums: &[u64], number: u64) -> bool
    ensures { IsTrue result ↔ ((i : ℕ) → i < length sums.now → slice_index sums.now i ≡ number) }
{
    sums.iter().all(|sum| *sum == number)
}

// Whether a sum is at most so many times a limit, where this stands.
fn is_within(sum: u128, d: u64, limit: Option<i64>) -> bool
    requires sum { sum < 2 ^ 90 }
    requires d { d ≤ 2 ^ 62 }
    requires fair { IsFair limit }
    ensures { IsTrue result ↔ AtMost (Some (pos sum)) (times d limit) }
{
    match limit {
        None => true,
        Some(most) => sum as i128 <= i128::from(d) * i128::from(most),
    }
}
