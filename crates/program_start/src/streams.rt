// The three standard streams are in use before a file is opened.
use std::fs;
use std::rt::Files;

// Three files that stay open. A file that stays open is no standard stream's number: where the program was started with a stream
// closed, each open takes the least free number, so that after three of them a file that is created can't be taken for standard
// output.
#[derive(Drop)]
pub struct Streams<F: Drop> {
    first: F,
    second: F,
    third: F,
}

// None where `/dev/null` can't be opened.
pub fn held_streams<R: Files>(rt: &R) -> Option<Streams<R::File>> {
    let first = fs::open(rt, "/dev/null").ok()?;
    let second = fs::open(rt, "/dev/null").ok()?;
    let third = fs::open(rt, "/dev/null").ok()?;
    Some(Streams {
        first,
        second,
        third,
    })
}
