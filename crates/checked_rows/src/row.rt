//! A check over a desk in memory. What a check does is proved of `check_run` itself; here nothing is promised.
use crate::desks::desk_of;
use front_check::check_run;
use slab_desk::{Act, MemDesk};
use std::alloc::{AllocError, Global};

/// The words, and the bytes of the order file and of the yard file.
#[derive(Clone, Copy)]
pub struct Given {
    pub words: &'static str,
    pub orders: &'static str,
    pub yard: &'static str,
}

/// Two orders of weight 4, for the sizes 4 and 10.
pub const TWO: Given = Given {
    words: "check orders cert",
    orders: "2 4 10 1 2 4 1 4 1",
    yard: "",
};

/// The two orders, with a surplus slab of 9.
pub const TWO_AND_NINE: Given = Given {
    words: "check orders cert --yard yard",
    orders: "2 4 10 1 2 4 1 4 1",
    yard: "1 9",
};

/// Three orders of weight 5, for the size 10.
pub const THREE: Given = Given {
    words: "check orders cert",
    orders: "1 10 1 3 5 1 5 1 5 1",
    yard: "",
};

/// One order, which no listed size holds.
pub const STUCK: Given = Given {
    words: "check orders cert",
    orders: "1 4 1 1 5 1",
    yard: "",
};

/// How a check ended: its status, what it said, how often the desk failed, whether its last call did, and how many files it
/// opened and created.
#[derive(Drop)]
pub struct Ended {
    pub status: u8,
    pub said: Vec<u8>,
    pub faults: u64,
    pub stopped: bool,
    pub opened: u32,
    pub created: u32,
}

/// Text whose lines are parted by ` / `, each with its line feed.
pub fn lines(alloc: Global, text: &str) -> Result<Vec<u8>, AllocError> {
    let mut bytes = Vec::new(alloc);
    for line in text.split(" / ") {
        bytes.extend_from_slice(line.as_bytes())?;
        bytes.push(b'\n')?;
    }
    Ok(bytes)
}

/// Whether a check of these bytes ends with this status and this text, in pieces of 1, of 7, and whole.
pub fn ends_so(
    alloc: Global,
    given: Given,
    cert: &[u8],
    status: u8,
    said: &str,
) -> Result<bool, AllocError> {
    let said = lines(alloc, said)?;
    for piece in [1, 7, 8192] {
        let end = checked(alloc, given, cert, piece)?;
        if end.status != status || end.said.as_slice() != said.as_slice() {
            return Ok(false);
        }
    }
    Ok(true)
}

/// A check of these bytes, so many at once.
pub fn checked(
    alloc: Global,
    given: Given,
    cert: &[u8],
    piece: usize,
) -> Result<Ended, AllocError> {
    let mut desk = desk_of(
        alloc,
        given.orders.as_bytes(),
        cert,
        given.yard.as_bytes(),
        piece,
        Vec::new(alloc),
    )?;
    end_of(alloc, given.words, &mut desk)
}

/// The same, three bytes at once, where the k-th call of this kind fails; none where there were fewer of them.
pub fn failing(
    alloc: Global,
    given: Given,
    cert: &[u8],
    act: Act,
    call: u32,
) -> Result<Option<Ended>, AllocError> {
    let mut desk = desk_of(
        alloc,
        given.orders.as_bytes(),
        cert,
        given.yard.as_bytes(),
        3,
        vec![in alloc; (act, call)]?,
    )?;
    let end = end_of(alloc, given.words, &mut desk)?;
    if desk.calls(act) < call {
        return Ok(None);
    }
    Ok(Some(end))
}

fn end_of(alloc: Global, words: &str, desk: &mut MemDesk) -> Result<Ended, AllocError> {
    let words = parted(alloc, words)?;
    let status = check_run(alloc, &words, desk);
    Ok(Ended {
        status,
        said: desk.said().to_vec(alloc)?,
        faults: desk.faults(),
        stopped: desk.stopped(),
        opened: desk.calls(Act::OpenFile),
        created: desk.calls(Act::Create),
    })
}

// The words between single spaces.
fn parted(alloc: Global, text: &str) -> Result<Vec<String>, AllocError> {
    let mut words = Vec::new(alloc);
    for part in text.split(' ') {
        words.push(String::from_str(alloc, part)?)?;
    }
    Ok(words)
}
