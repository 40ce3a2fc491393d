//! The whole numbers that a file tells.

ghost use Rattle.std.specs.Prelude.{◌≤◌, pos, ◌≤ℤ◌};
ghost use Rattle.mill_model.specs.Prices.{IsPrice};

use std::alloc::{AllocError, Global};

/// No price that is told is greater, with either sign.
const MOST_PRICE: i64 = 1_000_000_000_000_000_000;

/// The numbers of a text, up to the first word that is none.
pub fn read_numbers(alloc: Global, text: &[u8]) -> Result<Vec<i64>, AllocError> {
    let mut numbers = Vec::new(alloc);
    let Ok(text) = str::from_utf8(text) else {
        return Ok(numbers);
    };
    for word in text.split_whitespace() {
        let Ok(number) = word.parse() else {
            return Ok(numbers);
        };
        numbers.push(number)?;
    }
    Ok(numbers)
}

/// Numbers, read one after the other.
#[derive(Clone, Copy)]
pub struct Told<'a> {
    numbers: &'a [i64],
    at: usize,
}

impl<'a> Told<'a> {
    pub fn new(numbers: &'a [i64]) -> Told<'a> {
        Told { numbers, at: 0 }
    }

    /// The next number, and 0 after the last.
    pub fn number(&mut self) -> i64 {
        let Some(&number) = self.numbers.get(self.at) else {
            return 0;
        };
        self.at += 1;
        number
    }

    /// The next number, brought to 0 to 1,000: an order, a surplus slab, a row or a count.
    pub fn count(&mut self) -> u16
        ensures { result ≤ 1000 }
    {
        self.number().clamp(0, 1000) as u16
    }

    /// The next number as the worth of an order or of a surplus slab.
    pub fn price(&mut self) -> i64
        ensures { IsPrice result }
    {
        self.number().clamp(-MOST_PRICE, MOST_PRICE)
    }

    /// The next number as the price of loss or of a new slab.
    pub fn slab_price(&mut self) -> i64
        ensures price { IsPrice result }
        ensures sign { pos 0 ≤ℤ result }
    {
        self.number().clamp(0, MOST_PRICE)
    }
}
