//! Which question to split on.

ghost use Rattle.std.specs.Prelude.{◌≡◌, ◌<◌, ◌⊎◌, ◌↔◌, IfOk, IfSome, IsTrue};
ghost use Rattle.mill_model.specs.Decisions.{IsAskAmong};
ghost use Rattle.slab_tree.specs.Asking.{AreThere, IsOpenAskOf};

use crate::records::{ONE, Records};
use crate::shares::Shares;
use crate::workplace::Workplace;
use mill_model::{Ask, Mill};
use slab_columns::Pool;
use slab_node::Cover;
use std::alloc::{AllocError, Global};

// A share that lies so near to 0 or 1 counts as whole: the parts of a share are rounded down.
const NEAR: u32 = 512;

// Chooses questions by what became of their branches so far.
#[derive(Drop)]
pub(crate) struct Questions {
    shares: Shares,
    // What is known of each question, at its place among the shares, and of all.
    records: Vec<Records>,
    all: Records,
}

impl Questions {
    pub(crate) fn new(alloc: Global, mill: &Mill) -> Result<Questions, AllocError> {
        let orders = mill.orders().len() as u16;
        let yard = mill.yard().len() as u16;
        let shares = Shares::new(alloc, orders, yard)?;
        let records = vec![in alloc; Records::new(); shares.places()]?;
        Ok(Questions {
            shares,
            records,
            all: Records::new(),
        })
    }

    // The branch of a decision was decided; whether it was closed at once.
    pub(crate) fn note(&mut self, decision: (Ask, bool), closed: bool) {
        let (ask, yes) = decision;
        let place = self.shares.place_of(ask);
        if let Some(records) = self.records.get_mut(place) {
            records.note(yes, closed);
            self.all.note(yes, closed);
        }
    }

    // The question of a cover to split on: the one of the best score, or else the one that is handed in.
    pub(crate) fn choose(
        &mut self,
        place: &Workplace<'_>,
        pool: &Pool,
        cover: &Cover,
        first: Ask,
    ) -> Result<Ask, AllocError>
        requires { AreThere pool.now.columns cover.now }
        ensures { IfOk result (λ ask. (ask ≡ first) ⊎ IsOpenAskOf place.now.decisions ask) }
    {
        self.shares.take(pool, cover)?;
        Ok(self.best(place, first))
    }

    // The open question of the best score among those with a share.
    fn best(&self, place: &Workplace<'_>, first: Ask) -> Ask
        ensures { (result ≡ first) ⊎ IsOpenAskOf place.now.decisions result }
    {
        let mut best = first;
        let mut most = 0;
        for index in self.shares.touched() {
            let score = self.score_at(*index);
            if score > most {
                if let Some(ask) = self.open_ask(*index, place) {
                    best = ask;
                    most = score;
                }
            }
        }
        best
    }

    // The score of the question at a place, and 0 where its share is whole.
    fn score_at(&self, place: usize) -> u64 {
        let share = self.shares.at(place);
        if share < NEAR || share > ONE - NEAR {
            return 0;
        }
        match self.records.get(place) {
            Some(records) => records.score(&self.all, share),
            None => 0,
        }
    }

    // The question at a place, where it is open.
    fn open_ask(&self, index: usize, place: &Workplace<'_>) -> Option<Ask>
        ensures { IfSome result (IsOpenAskOf place.now.decisions) }
    {
        let ask = self.shares.ask_at(index);
        let orders = place.mill.orders().len() as u16;
        let yard = place.mill.yard().len() as u16;
        if is_among(orders, yard, ask) && place.decisions.follows(ask).is_none() {
            return Some(ask);
        }
        None
    }
}

// Whether there are such orders and such a surplus slab.
pub(crate) fn is_among(orders: u16, yard: u16, ask: Ask) -> bool
    ensures { IsTrue result ↔ IsAskAmong orders yard ask }
{
    match ask {
        Ask::Pair(i, j) => i < j && j < orders,
        Ask::Put(o, s) => o < orders && s < yard,
    }
}
