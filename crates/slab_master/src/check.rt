ghost use Rattle.std.specs.Prelude.{ℕ, ◌≡◌, ◌+◌, ◌*◌, ◌^◌, ◌<◌, ◌≤◌, ℤ, pos, ◌≤ℤ◌, ◌*ℤ◌, unsigned_abs, List, length, All, IfSome, IsTrue, slice_index_or, if◌then◌else◌, nat_eq};
ghost use Rattle.slab_frac.specs.Fraction.{Fraction};
ghost use Rattle.slab_counter.specs.Counter.{Rose};
ghost use Rattle.slab_master.specs.Given.{Row, Entry, columns_of};
ghost use Rattle.slab_master.specs.Denominators.{StandsOver};
ghost use Rattle.slab_master.specs.Sums.{number_at, product_of, right_product, coefficient, row_sum};
ghost use Rattle.slab_master.specs.Spread.{Meets, IsSpread};
ghost use Rattle.slab_master.specs.Prices.{AtMostZero, ArePrices};

use crate::given::Sense;
use crate::problem::Problem;
use slab_frac::{Frac, Wides, scale_all};

// What a test of an answer found.
#[derive(Clone, Copy)]
pub(crate) enum Tested {
    // It holds, as the whole numbers over this denominator show.
    Holds(i64),
    Fails,
    Wide,
}

// The product of two numbers.
#[inline]
pub(crate) fn term(number: i64, entry: i64) -> i128
    ensures { result ≡ number *ℤ entry }
{
    number as i128 * entry as i128
}

// The product of one number per row with a column, or none beyond 128 bits.
pub(crate) fn column_product(numbers: &[i64], column: &[(u16, i64)]) -> Option<i128>
    requires { All (λ e. e.0 < length numbers.now) column.now }
    ensures { IfSome result (λ z. z ≡ product_of numbers.now column.now) }
{
    let mut total: i128 = 0;
    for (row, entry) in column {
        total = total.checked_add(term(numbers[*row as usize], *entry))?;
    }
    Some(total)
}

// The product of one number per row with the right sides, or none beyond 128 bits.
pub(crate) fn right_total(numbers: &[i64], rows: &[(Sense, i64)]) -> Option<i128>
    requires { length numbers.now ≡ length rows.now }
    ensures { IfSome result (λ z. z ≡ right_product numbers.now rows.now) }
{
    let mut total: i128 = 0;
    for (i, row) in rows.iter().enumerate() {
        total = total.checked_add(term(numbers[i], row.1))?;
    }
    Some(total)
}

// Whether the numbers are at most 0 on the AtMost rows.
pub(crate) fn signs_hold(numbers: &[i64], rows: &[(Sense, i64)]) -> bool
    requires { length numbers.now ≡ length rows.now }
    ensures { IsTrue result → (i : ℕ) (row : Row) → i < length rows.now → AtMostZero (slice_index_or rows.now i row) (number_at numbers.now i) }
{
    for (i, row) in rows.iter().enumerate() {
        if row.0 == Sense::AtMost && numbers[i] > 0 {
            return false;
        }
    }
    true
}

// Whether the product with every column is at most 0.
fn products_hold(numbers: &[i64], columns: &[Vec<(u16, i64)>]) -> bool
    requires { All (λ c. All (λ e. e.0 < length numbers.now) c.items) columns.now }
    ensures { IsTrue result → All (λ c. product_of numbers.now c.items ≤ℤ pos 0) columns.now }
{
    for column in columns {
        match column_product(numbers, column.as_slice()) {
            Some(product) if product <= 0 => {}
            _ => return false,
        }
    }
    true
}

// Tests prices, one per row, against the rows and columns. `scaled` is room for a whole number per row.
pub(crate) fn test_prices(
    problem: &Problem<'_>,
    prices: &[Frac],
    scaled: &mut [i64],
    wides: &mut Wides,
) -> Tested
    requires prices { length prices.now ≡ length problem.now.rows.now }
    requires scaled { length scaled.old ≡ length problem.now.rows.now }
    ensures grows { wides.old ≤ wides.new }
    ensures holds { (d : ℤ) → result ≡ Tested.Holds d → ArePrices problem.now.rows.now (columns_of problem.now.columns.now) prices.now }
    ensures wide { result ≡ Tested.Wide → Rose wides.old wides.new }
{
    let Some(denominator) = scale_all(prices, wides, scaled) else {
        return Tested::Wide;
    };
    if !signs_hold(scaled, problem.rows) || !products_hold(scaled, problem.columns) {
        return Tested::Fails;
    }
    match right_total(scaled, problem.rows) {
        Some(total) if total > 0 => Tested::Holds(denominator),
        _ => Tested::Fails,
    }
}

// Whether no number is negative.
fn none_negative(numbers: &[i64]) -> bool
    ensures { IsTrue result → All (λ k. pos 0 ≤ℤ k) numbers.now }
{
    for number in numbers {
        if *number < 0 {
            return false;
        }
    }
    true
}

// What an entry adds to its column's number in a row.
fn number_in(entry: &(u16, i64), row: usize) -> i64
    ensures { result ≡ (if nat_eq entry.now.0 row then entry.now.1 else pos 0) }
{
    if entry.0 as usize == row { entry.1 } else { 0 }
}

// A column's number in a row, or none beyond 64 bits.
fn coefficient_at(column: &[(u16, i64)], row: usize) -> Option<i64>
    ensures { IfSome result (λ z. z ≡ coefficient column.now row) }
{
    let mut total: i64 = 0;
    for entry in column {
        total = total.checked_add(number_in(entry, row))?;
    }
    Some(total)
}

// What a column adds to the sum of a row, or none where its number in the row needs more than 64 bits.
fn part(multiplier: i64, column: &[(u16, i64)], row: usize) -> Option<i128>
    ensures { IfSome result (λ z. z ≡ multiplier *ℤ coefficient column.now row) }
{
    if multiplier == 0 {
        return Some(0);
    }
    let number = coefficient_at(column, row)?;
    Some(term(multiplier, number))
}

// The sum of a row over one multiplier per column, or none beyond 128 bits.
fn row_total(multipliers: &[i64], columns: &[Vec<(u16, i64)>], row: usize) -> Option<i128>
    requires { length multipliers.now ≡ length columns.now }
    ensures { IfSome result (λ z. z ≡ row_sum multipliers.now (columns_of columns.now) row) }
{
    let mut total: i128 = 0;
    for (j, column) in columns.iter().enumerate() {
        let more = part(multipliers[j], column.as_slice(), row)?;
        total = total.checked_add(more)?;
    }
    Some(total)
}

// Whether a row's sum over multipliers that stand over the denominator meets its right side.
fn meets(row: &(Sense, i64), total: i128, denominator: i64) -> bool
    requires { pos (unsigned_abs denominator) ≡ denominator }
    ensures { IsTrue result → Meets (unsigned_abs denominator) row.now total }
{
    let right = term(row.1, denominator);
    match row.0 {
        Sense::Equal => total == right,
        Sense::AtMost => total <= right,
    }
}

// Whether every row is met by multipliers that stand over the denominator.
fn rows_hold(
    rows: &[(Sense, i64)],
    columns: &[Vec<(u16, i64)>],
    denominator: i64,
    multipliers: &[i64],
) -> bool
    requires denominator { pos (unsigned_abs denominator) ≡ denominator }
    requires multipliers { length multipliers.now ≡ length columns.now }
    ensures { IsTrue result → (i : ℕ) (row : Row) → i < length rows.now → Meets (unsigned_abs denominator) (slice_index_or rows.now i row) (row_sum multipliers.now (columns_of columns.now) i) }
{
    for (i, row) in rows.iter().enumerate() {
        match row_total(multipliers, columns, i) {
            Some(total) if meets(row, total, denominator) => {}
            _ => return false,
        }
    }
    true
}

// Tests multipliers, one per column, against the rows and columns. `scaled` is room for a whole number per column.
pub(crate) fn test_spread(
    problem: &Problem<'_>,
    spread: &[Frac],
    scaled: &mut [i64],
    wides: &mut Wides,
) -> Tested
    requires spread { length spread.now ≡ length problem.now.columns.now }
    requires scaled { length scaled.old ≡ length problem.now.columns.now }
    ensures grows { wides.old ≤ wides.new }
    ensures holds { (d : ℤ) → result ≡ Tested.Holds d → IsSpread problem.now.rows.now (columns_of problem.now.columns.now) spread.now }
    ensures scaled { (d : ℤ) → result ≡ Tested.Holds d → StandsOver d spread.now scaled.new }
    ensures wide { result ≡ Tested.Wide → Rose wides.old wides.new }
{
    let Some(denominator) = scale_all(spread, wides, scaled) else {
        return Tested::Wide;
    };
    if none_negative(scaled) && rows_hold(problem.rows, problem.columns, denominator, scaled) {
        return Tested::Holds(denominator);
    }
    Tested::Fails
}
