//! What the branches of a question came to so far (pseudo-costs), as whole numbers over `ONE`.

ghost use Rattle.std.specs.Prelude.{◌≤◌};

// Shares, rates and scores are over this number.
pub(crate) const ONE: u32 = 65_536;

// How many branches were decided, and how many of them were closed at once.
#[derive(Clone, Copy, Drop)]
pub(crate) struct Record {
    decided: u32,
    closed: u32,
}

impl Record {
    pub(crate) fn new() -> Record {
        Record {
            decided: 0,
            closed: 0,
        }
    }

    pub(crate) fn note(&mut self, closed: bool) {
        self.decided = self.decided.saturating_add(1);
        self.closed = self.closed.saturating_add(u32::from(closed));
    }

    // The part that was closed, and three in ten where there was no branch.
    pub(crate) fn rate(&self) -> u64
        ensures { result ≤ 65536 }
    {
        if self.decided == 0 {
            return 19_661;
        }
        let rate = u64::from(self.closed) * u64::from(ONE) / u64::from(self.decided);
        rate.min(u64::from(ONE))
    }

    // The part that was closed, with two more branches at a rate.
    fn rate_near(&self, rate: u64) -> u64
        requires { rate ≤ 65536 }
        ensures { result ≤ 65536 }
    {
        let closed = u64::from(self.closed) * u64::from(ONE) + 2 * rate;
        (closed / (u64::from(self.decided) + 2)).min(u64::from(ONE))
    }
}

// The branches for yes and for no.
#[derive(Clone, Copy, Drop)]
pub(crate) struct Records {
    yes: Record,
    no: Record,
}

impl Records {
    pub(crate) fn new() -> Records {
        Records {
            yes: Record::new(),
            no: Record::new(),
        }
    }

    pub(crate) fn note(&mut self, yes: bool, closed: bool) {
        if yes {
            self.yes.note(closed);
        } else {
            self.no.note(closed);
        }
    }

    // How good it is to ask this question: both branches are likely to be closed, and the share is near one half.
    pub(crate) fn score(&self, all: &Records, share: u32) -> u64
        requires { share ≤ 65536 }
    {
        let yes = self.yes.rate_near(all.yes.rate());
        let no = self.no.rate_near(all.no.rate());
        let closing = 3 * yes.max(no) / 10 + yes.min(no) + 1311;
        let near_half = 2 * u64::from(share.min(ONE - share)) + 6554;
        closing * near_half
    }
}
