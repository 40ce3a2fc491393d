// Numbers and ends of lines.
ghost use Rattle.std.specs.Prelude.{◌∷◌, []};
ghost use Rattle.std.specs.Fmt.{decimal, signed_decimal};
ghost use Rattle.line_out.specs.Puts.{Puts};

use crate::{End, LineOut};
use itoa::Buffer;

impl<E> LineOut<E> {
    /// Puts a space and this number in decimal.
    pub fn number<D>(&mut self, desk: &mut D, number: u64)
    where
        E: End<D>,
        ensures { Puts E.sends (32 ∷ decimal number) (self.old, E.seen desk.old) (self.new, E.seen desk.new) }
    {
        let mut digits = Buffer::new();
        self.put(desk, b" ");
        self.put(desk, digits.format(number).as_bytes());
    }

    /// Puts a space and this number in decimal, after a sign where it is below 0.
    pub fn signed_number<D>(&mut self, desk: &mut D, number: i64)
    where
        E: End<D>,
        ensures { Puts E.sends (32 ∷ signed_decimal number) (self.old, E.seen desk.old) (self.new, E.seen desk.new) }
    {
        let mut digits = Buffer::new();
        self.put(desk, b" ");
        self.put(desk, digits.format(number).as_bytes());
    }

    /// Ends the line.
    pub fn end_line<D>(&mut self, desk: &mut D)
    where
        E: End<D>,
        ensures { Puts E.sends (10 ∷ []) (self.old, E.seen desk.old) (self.new, E.seen desk.new) }
    {
        self.put(desk, b"\n");
    }
}
