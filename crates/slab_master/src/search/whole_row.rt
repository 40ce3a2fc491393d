//! A working row: whole numbers over one denominator, the last of which is the right side. Beside them stands a bound of their
//! absolute values, which tells before a loop whether 64 bits are enough for it. Nothing rests on these numbers, since whoever
//! reads an answer off them tests it; so they are computed by operations that would wrap, and the bound sees to it that none
//! does.

ghost use Rattle.std.specs.Prelude.{ℕ, ◌≡◌, ◌<◌, ◌≤◌, IfNone};
ghost use Rattle.slab_counter.specs.Counter.{Rose};

use crate::check::term;
use slab_frac::{Frac, Wides, in_range, lowest_words, wide_divisor, word_divisor, word_quotient};
use std::alloc::{AllocError, Global};

// The largest bound and the largest denominator of a row.
const LIMIT: u128 = 0x4000_0000_0000_0000;

// The greatest number of 128 bits with a sign.
const WIDEST: u128 = 0x7FFF_FFFF_FFFF_FFFF_FFFF_FFFF_FFFF_FFFF;

// A row is divided by what its numbers share where its bound or its denominator is above this. Smaller rows aren't worth it.
const LARGE: u64 = 0x100_0000_0000;

// What a row and the row that is taken off it are multiplied by.
#[derive(Clone, Copy)]
struct Factors {
    own: i64,
    other: i64,
}

// A working row.
#[derive(Drop)]
pub(crate) struct WholeRow {
    numbers: Vec<i64>,
    denominator: u64,
    bound: u64,
}

// A number of at most 2^62, with the sign of another.
#[inline]
fn with_sign(size: u64, like: i64) -> i64 {
    let number = (size as u128).min(LIMIT) as i64;
    if like < 0 { -number } else { number }
}

// The factors by which a cell over a row's denominator is cleared with a row of this denominator.
fn factors_of(cell: i64, denominator: u64) -> Factors
    requires { 0 < denominator }
{
    let (other, own) = lowest_words(cell.unsigned_abs(), denominator);
    Factors {
        own: with_sign(own, 1),
        other: with_sign(other, cell),
    }
}

// A bound of the sum of two products.
fn sum_bound(left: u64, by: i64, right: u64, times: i64) -> u128 {
    let first = left as u128 * by.unsigned_abs() as u128;
    let second = right as u128 * times.unsigned_abs() as u128;
    first.saturating_add(second)
}

// Takes a row off another so many times, at the places where it isn't 0.
fn take_multiple(numbers: &mut [i64], other: &[i64], filled: &[usize], times: i64) {
    for &place in filled {
        if place < numbers.len() && place < other.len() {
            let taken = other[place].wrapping_mul(times);
            numbers[place] = numbers[place].wrapping_sub(taken);
        }
    }
}

// Multiplies a row.
fn multiply(numbers: &mut [i64], factor: i64) {
    for number in numbers.iter_mut() {
        *number = number.wrapping_mul(factor);
    }
}

// The difference of two numbers, both multiplied, in 128 bits.
#[inline]
fn combined(x: i64, y: i64, factors: Factors) -> i128 {
    term(x, factors.own).wrapping_sub(term(y, factors.other))
}

// A number divided by another, or 0 where that is 0 or has no sign.
fn quotient(number: i128, divisor: u128) -> i128 {
    if divisor == 0 || divisor > WIDEST {
        return 0;
    }
    number / divisor as i128
}

// Takes a row off another, both multiplied, and divides by what the numbers share. None comes only where a number left its range.
fn combine_wide(
    numbers: &mut [i64],
    other: &[i64],
    factors: Factors,
    shared: u128,
    wides: &mut Wides,
) -> Option<()>
    ensures grows { wides.old ≤ wides.new }
    ensures wide { IfNone result (Rose wides.old wides.new) }
{
    for (x, y) in numbers.iter_mut().zip(other) {
        *x = in_range(quotient(combined(*x, *y, factors), shared), wides)?;
    }
    Some(())
}

// The greatest common divisor of a denominator and the combined numbers of two rows.
fn wide_shared(numbers: &[i64], other: &[i64], factors: Factors, denominator: i128) -> u128 {
    let mut shared = denominator.unsigned_abs();
    for (x, y) in numbers.iter().zip(other) {
        if shared == 1 {
            return shared;
        }
        shared = wide_divisor(combined(*x, *y, factors).unsigned_abs(), shared);
    }
    shared
}

// The greatest common divisor of a denominator and of numbers.
fn shared_by(numbers: &[i64], denominator: u64) -> u64 {
    let mut shared = denominator;
    for number in numbers {
        if shared <= 1 {
            return shared;
        }
        let rest = number.unsigned_abs() % shared;
        if rest != 0 {
            shared = word_divisor(rest, shared);
        }
    }
    shared
}

// Divides numbers by one that is above 1; by no other.
fn divide(numbers: &mut [i64], divisor: i64) {
    if divisor <= 1 {
        return;
    }
    for number in numbers.iter_mut() {
        if *number != 0 {
            *number /= divisor;
        }
    }
}

// A bound of the absolute values, below twice the greatest.
fn bound_of(numbers: &[i64]) -> u64 {
    let mut bound = 0;
    for number in numbers {
        bound |= number.unsigned_abs();
    }
    bound
}

// A number over a denominator as a fraction, or 0 where that is out of range.
fn fraction_of(number: i64, denominator: u64, wides: &mut Wides) -> Frac
    ensures { wides.old ≤ wides.new }
{
    match Frac::of_parts(number, denominator.max(1), wides) {
        Some(fraction) => fraction,
        None => Frac::whole(0),
    }
}

impl WholeRow {
    // A row of no numbers.
    pub(crate) fn new(alloc: Global) -> WholeRow {
        WholeRow {
            numbers: Vec::new(alloc),
            denominator: 1,
            bound: 0,
        }
    }

    // Makes it a row of so many zeros.
    pub(crate) fn clear(&mut self, width: usize) -> Result<(), AllocError> {
        self.numbers.clear();
        self.numbers.resize(width, 0)?;
        self.denominator = 1;
        self.bound = 0;
        Ok(())
    }

    // Writes zeros into the row.
    pub(crate) fn fill_with_zeros(&mut self) {
        self.numbers.fill(0);
        self.denominator = 1;
        self.bound = 0;
    }

    // Writes a number over the denominator, if its place is there.
    pub(crate) fn put(&mut self, place: usize, number: i64) {
        if place < self.numbers.len() {
            self.numbers[place] = number;
            self.bound = self.bound.max(number.unsigned_abs());
        }
    }

    // The numbers over the denominator.
    pub(crate) fn numbers(&self) -> &[i64] {
        self.numbers.as_slice()
    }

    pub(crate) fn denominator(&self) -> u64 {
        self.denominator
    }

    // The right side over the denominator, or 0 where the row is empty.
    #[inline]
    pub(crate) fn right(&self) -> i64 {
        match self.numbers.last() {
            Some(number) => *number,
            None => 0,
        }
    }

    // How many numbers aren't 0.
    pub(crate) fn count_filled(&self) -> usize {
        self.numbers.iter().filter(|number| **number != 0).count()
    }

    // Writes the places of the numbers that aren't 0, as far as the list's room goes.
    pub(crate) fn write_filled(&self, list: &mut Vec<usize>) {
        list.clear();
        for (place, number) in self.numbers.iter().enumerate() {
            if *number != 0 && list.len() < list.capacity() {
                let _ = list.push(place);
            }
        }
    }

    // A number as a fraction, or 0 past the end.
    pub(crate) fn fraction(&self, place: usize, wides: &mut Wides) -> Frac
        ensures { wides.old ≤ wides.new }
    {
        let number = self.numbers.get(place).copied().unwrap_or(0);
        fraction_of(number, self.denominator, wides)
    }

    // The same with its sign turned.
    pub(crate) fn opposite(&self, place: usize, wides: &mut Wides) -> Frac
        ensures { wides.old ≤ wides.new }
    {
        let number = self.numbers.get(place).copied().unwrap_or(0);
        fraction_of(number.wrapping_neg(), self.denominator, wides)
    }

    // Writes the row as fractions, as far as the list's room goes.
    pub(crate) fn write_fractions(&self, list: &mut Vec<Frac>) {
        list.clear();
        let mut wides = Wides::new();
        for number in &self.numbers {
            if list.len() < list.capacity() {
                let _ = list.push(fraction_of(*number, self.denominator, &mut wides));
            }
        }
    }

    // What the row says of a column over the denominator.
    pub(crate) fn product(&self, column: &[(u16, i64)]) -> i128 {
        let mut total: i128 = 0;
        for (row, entry) in column {
            if let Some(number) = self.numbers.get(*row as usize) {
                total = total.wrapping_add(term(*number, *entry));
            }
        }
        total
    }

    // A whole number over the denominator.
    pub(crate) fn multiple(&self, number: i64) -> i128 {
        (number as i128).wrapping_mul(self.denominator as i128)
    }

    // Divides the row by the cell over its denominator of what enters, which isn't 0.
    pub(crate) fn divide_by(&mut self, cell: i64) {
        if cell < 0 {
            for number in self.numbers.iter_mut() {
                *number = number.wrapping_neg();
            }
        }
        self.denominator = cell.unsigned_abs();
        if self.denominator != 1 {
            self.reduce();
        }
    }

    // Divides the numbers and the denominator by what they share, and finds the bound anew.
    fn reduce(&mut self) {
        let shared = shared_by(&self.numbers, self.denominator);
        if shared > 1 {
            divide(&mut self.numbers, with_sign(shared, 1));
            self.denominator = word_quotient(self.denominator, shared);
        }
        self.bound = bound_of(&self.numbers);
    }

    // Takes so much of another row, which is filled at these places, off the row that a cell of it over its denominator is cleared,
    // where the other's is 1. None comes only where a number left its range.
    pub(crate) fn subtract(
        &mut self,
        other: &WholeRow,
        filled: &[usize],
        cell: i64,
        wides: &mut Wides,
    ) -> Option<()>
        ensures grows { wides.old ≤ wides.new }
        ensures wide { IfNone result (Rose wides.old wides.new) }
    {
        let factors = factors_of(cell, other.denominator.max(1));
        let bound = sum_bound(self.bound, factors.own, other.bound, factors.other);
        let denominator = self.multiple(factors.own);
        if bound > LIMIT || denominator < 1 || denominator > LIMIT as i128 {
            return self.subtract_wide(other, factors, denominator, wides);
        }
        if factors.own != 1 {
            multiply(&mut self.numbers, factors.own);
        }
        take_multiple(&mut self.numbers, &other.numbers, filled, factors.other);
        self.bound = bound as u64;
        self.denominator = denominator as u64;
        if self.bound > LARGE || self.denominator > LARGE {
            self.reduce();
        }
        Some(())
    }

    // The same where 64 bits may be too few: in 128, divided by what all numbers share.
    fn subtract_wide(
        &mut self,
        other: &WholeRow,
        factors: Factors,
        denominator: i128,
        wides: &mut Wides,
    ) -> Option<()>
        ensures grows { wides.old ≤ wides.new }
        ensures wide { IfNone result (Rose wides.old wides.new) }
    {
        let shared = wide_shared(&self.numbers, &other.numbers, factors, denominator);
        let below = in_range(quotient(denominator, shared), wides)?;
        self.denominator = below.unsigned_abs();
        combine_wide(&mut self.numbers, &other.numbers, factors, shared, wides)?;
        self.bound = bound_of(&self.numbers);
        Some(())
    }
}
