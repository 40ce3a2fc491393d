//! A column that grows item by item, and a walk over all columns that begin with one item.

use crate::items::Item;
use std::alloc::{AllocError, Global};

// Items that lie together.
#[derive(Clone, Copy, Drop)]
pub(crate) struct Column {
    // A bit for each item.
    pub items: u64,
    pub load: u32,
    // The bits of its colours, how many more may come, and the colours that may still join.
    colours: u64,
    more: usize,
    open: u64,
    // The bits of the surplus slabs from which an item is barred.
    pub bars: u64,
}

impl Column {
    // One item, on a slab with so many colours.
    pub(crate) fn of(item: &Item, colour_limit: usize) -> Column {
        let more = colour_limit.saturating_sub(1);
        Column {
            items: item.bit,
            load: item.weight,
            colours: item.colour,
            more,
            open: if more == 0 { item.colour } else { u64::MAX },
            bars: item.bars,
        }
    }

    fn takes(&self, item: &Item, room: u32) -> bool {
        self.load.saturating_add(item.weight) <= room && self.open & item.colour != 0
    }

    // The column with one item more.
    fn with(self, item: &Item) -> Column {
        let mut column = self;
        column.items |= item.bit;
        column.load = column.load.saturating_add(item.weight);
        column.bars |= item.bars;
        if column.colours & item.colour == 0 {
            column.colours |= item.colour;
            column.more = column.more.saturating_sub(1);
            if column.more == 0 {
                column.open = column.colours;
            }
        }
        column
    }
}

// A walk over the columns that begin with one item: an item that may join joins first, and is left out later.
#[derive(Drop)]
pub(crate) struct Walk {
    column: Column,
    // The next item.
    at: usize,
    // The columns before items joined, with the item that comes next where that one is left out.
    before: Vec<(Column, usize)>,
    over: bool,
}

impl Walk {
    pub(crate) fn new(alloc: Global, most: usize) -> Result<Walk, AllocError> {
        Ok(Walk {
            column: Column {
                items: 0,
                load: 0,
                colours: 0,
                more: 0,
                open: 0,
                bars: 0,
            },
            at: 0,
            before: Vec::with_capacity(alloc, most)?,
            over: true,
        })
    }

    // Begins with an item.
    pub(crate) fn begin(&mut self, first: &Item, colour_limit: usize) {
        self.column = Column::of(first, colour_limit);
        self.at = first.after;
        self.before.clear();
        self.over = false;
    }

    // The next column of items that aren't used, in at most so many steps, which it counts down.
    pub(crate) fn next_column(
        &mut self,
        items: &[Item],
        used: u64,
        room: u32,
        left: &mut u32,
    ) -> Option<Column> {
        if self.over {
            return None;
        }
        let most = *left;
        for step in 0..most {
            match items.get(self.at) {
                Some(item) => self.pass(item, used, room),
                None => {
                    *left = most - step - 1;
                    return Some(self.turn_back());
                }
            }
        }
        *left = 0;
        None
    }

    // The next item joins, where it may.
    fn pass(&mut self, item: &Item, used: u64, room: u32) {
        self.at = item.after;
        if used & item.bit == 0 && self.column.takes(item, room) {
            let _ = self.before.push((self.column, item.other));
            self.column = self.column.with(item);
        }
    }

    // The column is whole. It goes on without the last item that joined.
    fn turn_back(&mut self) -> Column {
        let column = self.column;
        match self.before.pop() {
            Some((before, at)) => {
                self.column = before;
                self.at = at;
            }
            None => self.over = true,
        }
        column
    }
}
