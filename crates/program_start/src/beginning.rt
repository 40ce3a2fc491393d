// The start of a program.
use crate::no_start::NoStart;
use crate::streams::{Streams, held_streams};
use std::env::{self, Env};
use std::io::ErrorKind;
use std::rt::Files;

/// What a program runs with. It is kept until the run has ended.
#[derive(Drop)]
pub struct Begun<F: Drop> {
    /// The words after the program's name.
    pub words: Vec<String>,
    streams: Streams<F>,
}

/// Holds the standard streams' descriptors and fetches the words, or tells why a program can't run.
pub fn start<R: Files + Env + AllocGlobal>(rt: &R) -> Result<Begun<R::File>, NoStart> {
    let Some(streams) = held_streams(rt) else {
        return Err(NoStart::Fault);
    };
    let words = fetched(rt)?;
    Ok(Begun { words, streams })
}

// The words after the program's name.
fn fetched(rt: &(impl Env + AllocGlobal)) -> Result<Vec<String>, NoStart> {
    let mut words = Vec::new(rt.alloc());
    let args = match env::args(rt) {
        Ok(args) => args,
        Err(e) if e.kind() == ErrorKind::OutOfMemory => return Err(NoStart::Memory),
        Err(_) => return Err(NoStart::Fault),
    };
    for word in args.skip(1) {
        if words.push(word).is_err() {
            return Err(NoStart::Memory);
        }
    }
    Ok(words)
}
