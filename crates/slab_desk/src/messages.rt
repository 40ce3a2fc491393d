//! What a person reads on standard error where the outside failed: one line, with what could not be done and why.
use crate::calls::Act;
use arrayvec::ArrayString;
use std::io::{Error, ErrorKind};

// The system opens no longer name.
const MOST_NAME: usize = 4096;

// An open file, and its name. The name takes no memory.
#[derive(Drop)]
pub struct NamedFile<F: Drop> {
    pub file: F,
    pub name: ArrayString<MOST_NAME>,
}

impl<F: Drop> NamedFile<F> {
    // This file, with the name by which it was opened.
    pub fn new(file: F, name: &str) -> Self {
        let name = match ArrayString::from(name) {
            Ok(name) => name,
            Err(_) => ArrayString::new(),
        };
        NamedFile { file, name }
    }
}

// Says what the program could not do with this file, and why; nothing where standard error can't be written.
pub fn tell(rt: &impl Eprint, program: &str, act: Act, name: &str, error: &Error) {
    let verb = verb_of(act);
    let _ = match reason_of(act, error.kind()) {
        Some(reason) => eprintln!(rt; "{program}: cannot {verb} {name}: {reason}"),
        None => eprintln!(rt; "{program}: cannot {verb} {name}: {error}"),
    };
}

fn verb_of(act: Act) -> &'static str {
    match act {
        Act::OpenFile => "open",
        Act::Read => "read",
        Act::Create => "create",
        Act::Write | Act::Say => "write",
    }
}

// The reasons that have plain words here. The system has its own for the others.
fn reason_of(act: Act, kind: ErrorKind) -> Option<&'static str> {
    match kind {
        ErrorKind::NotFound if act == Act::Create => Some("no such directory"),
        ErrorKind::NotFound => Some("no such file"),
        ErrorKind::IsADirectory => Some("it is a directory"),
        ErrorKind::NotADirectory => Some("a part of the name before the last is no directory"),
        ErrorKind::PermissionDenied => Some("permission denied"),
        ErrorKind::ReadOnlyFilesystem => Some("the file system is read-only"),
        ErrorKind::StorageFull => Some("the disk is full"),
        ErrorKind::BrokenPipe => Some("the pipe is closed"),
        _ => None,
    }
}
