//! Numbers that follow from a seed, one after another: what is made or placed by lot goes by them, everywhere alike.
#![tactic(auto)]

ghost use Rattle.std.specs.Prelude.{◌≡◌, ◌<◌};
ghost use Rattle.number_draws.specs.Draws.{next_draw, among as drawn_among};

/// The numbers of a seed, one after another.
#[derive(Clone, Copy, Debug, Drop)]
pub struct Draws {
    /// The number that was drawn last, or the seed.
    pub last: u32,
}

impl Draws {
    /// Draws the next number.
    pub fn next(&mut self) -> u32
        ensures number { self.new.last ≡ next_draw self.old.last }
        ensures value { result ≡ self.new.last }
    {
        self.last = ((1664525 * u64::from(self.last) + 1013904223) % (1 << 32)) as u32;
        self.last
    }

    /// Draws one among so many things, counted from 0, by the upper half of the next number.
    pub fn among(&mut self, count: usize) -> usize
        requires { 0 < count }
        ensures number { self.new.last ≡ next_draw self.old.last }
        ensures drawn { result ≡ drawn_among count self.new.last }
        ensures within { result < count }
    {
        (self.next() / 65536) as usize % count
    }
}
