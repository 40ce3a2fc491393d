//! A run over a desk in memory. What a run does is proved of `run` itself; here nothing is promised.
use crate::desks::{Files, desk_of};
use slab_desk::{Act, MemDesk};
use slab_front::run;
use slab_node::Tally;
use std::alloc::{AllocError, Global};

/// How a run ended: its status, what it said, the certificate if it created one, how often the desk failed, and whether its
/// last call did.
#[derive(Debug, Drop)]
pub struct Row {
    pub status: u8,
    pub said: Vec<u8>,
    pub stored: Option<Vec<u8>>,
    pub faults: u64,
    pub stopped: bool,
}

/// The run of these words, parted by single spaces, over these files. The certificate is the file `cert`.
pub fn run_row(alloc: Global, words: &str, files: Files<'_>) -> Result<Row, AllocError> {
    storing_row(alloc, words, files, "cert")
}

/// The same where the certificate is the file of this name.
pub fn storing_row(
    alloc: Global,
    words: &str,
    files: Files<'_>,
    cert: &str,
) -> Result<Row, AllocError> {
    let mut desk = desk_of(alloc, files.orders, files.plan, files.yard, Vec::new(alloc))?;
    ended(alloc, words, &mut desk, cert)
}

/// The same where the k-th call of this kind fails; none where there were fewer of them.
pub fn failing_row(
    alloc: Global,
    words: &str,
    files: Files<'_>,
    act: Act,
    call: u32,
) -> Result<Option<Row>, AllocError> {
    let failing = vec![in alloc; (act, call)]?;
    let mut desk = desk_of(alloc, files.orders, files.plan, files.yard, failing)?;
    let row = ended(alloc, words, &mut desk, "cert")?;
    if desk.calls(act) < call {
        return Ok(None);
    }
    Ok(Some(row))
}

/// Whether a run ends with this status and this text.
pub fn ends_so(
    alloc: Global,
    words: &str,
    files: Files<'_>,
    status: u8,
    said: &str,
) -> Result<bool, AllocError> {
    let row = run_row(alloc, words, files)?;
    Ok(row.status == status && row.said.as_slice() == said.as_bytes())
}

/// The same where no call failed and no certificate is there.
pub fn only_says(
    alloc: Global,
    words: &str,
    files: Files<'_>,
    status: u8,
    said: &str,
) -> Result<bool, AllocError> {
    let row = run_row(alloc, words, files)?;
    let unchanged = row.faults == 0 && row.stored.is_none();
    Ok(unchanged && row.status == status && row.said.as_slice() == said.as_bytes())
}

fn ended(alloc: Global, words: &str, desk: &mut MemDesk, cert: &str) -> Result<Row, AllocError> {
    let status = status_of(alloc, words, desk)?;
    let stored = match desk.file(cert) {
        Some(bytes) => Some(bytes.to_vec(alloc)?),
        None => None,
    };
    Ok(Row {
        status,
        said: desk.said().to_vec(alloc)?,
        stored,
        faults: desk.faults(),
        stopped: desk.stopped(),
    })
}

fn status_of(alloc: Global, words: &str, desk: &mut MemDesk) -> Result<u8, AllocError> {
    let words = parted(alloc, words)?;
    Ok(run(alloc, &words, desk, &mut Tally::new()))
}

// The words between single spaces; none of an empty text.
fn parted(alloc: Global, text: &str) -> Result<Vec<String>, AllocError> {
    let mut words = Vec::new(alloc);
    if text.is_empty() {
        return Ok(words);
    }
    for part in text.split(' ') {
        words.push(String::from_str(alloc, part)?)?;
    }
    Ok(words)
}
