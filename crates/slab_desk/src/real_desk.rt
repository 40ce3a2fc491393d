//! Files and standard output as the system has them.
ghost use Rattle.std.specs.Prelude.{◌≡◌, ◌<◌, ◌≤◌, None, Ok, false, length, IfOk};
ghost use Rattle.slab_desk.specs.Names.{no_names};

use crate::desk::fault;
use crate::messages::{NamedFile, tell};
use crate::{Act, Desk, Failed, Noted};
use std::fs;
use std::io::{self, Error, ErrorKind, Read, Write};
use std::marker::Model;
use std::rt::Files;

/// A thin adapter over the files and the standard output of a runtime. It tells nothing but its faults, whether the last call
/// failed, and which names it was given. Each call that fails is said in a line on standard error.
#[derive(Drop)]
pub struct RealDesk<R: Files + Print + Eprint + Drop> {
    rt: R,
    program: &'static str,
    source: Option<NamedFile<R::File>>,
    target: Option<NamedFile<R::File>>,
    faults: u64,
    stopped: bool,
    opened: Noted,
    created: Noted,
}

impl<R: Files + Print + Eprint + Drop> Model for RealDesk<R> {
    ghost use Rattle.slab_desk.specs.State.{FaultState};

    ghost Value = { FaultState };

    ghost view = { λ desk. record { faults = desk.faults; stopped = desk.stopped; named = record { opened = desk.opened.names; created = desk.created.names } } };
}

impl<R: Files + Print + Eprint + Drop> RealDesk<R> {
    /// A desk with no file opened or created, and no fault yet. Lines on standard error begin with the program's name.
    pub fn new(rt: R, program: &'static str) -> Self
        ensures { result ≡ record { faults = 0; stopped = false; named = no_names } }
    {
        RealDesk {
            rt,
            program,
            source: None,
            target: None,
            faults: 0,
            stopped: false,
            opened: Noted::none(),
            created: Noted::none(),
        }
    }
}

impl<R: Files + Print + Eprint + Drop> Desk for RealDesk<R> {
    ghost told = { λ _. None };

    ghost faults = { λ desk. desk.faults };

    ghost stopped = { λ desk. desk.stopped };

    ghost named = { λ desk. desk.named };

    fn open_file(&mut self, name: &str) -> Result<(), Failed> {
        self.stopped = false;
        self.opened = self.opened.and(name);
        match fs::open(&self.rt, name) {
            Ok(file) => {
                self.source = Some(NamedFile::new(file, name));
                Ok(())
            }
            Err(error) => {
                tell(&self.rt, self.program, Act::OpenFile, name, &error);
                Err(fault(&mut self.faults, &mut self.stopped))
            }
        }
    }

    fn read(&mut self, buf: &mut [u8]) -> Result<usize, Failed> {
        self.stopped = false;
        let Some(source) = &mut self.source else {
            return Ok(0);
        };
        match source.file.read(buf) {
            Ok(count) => Ok(count),
            Err(error) => {
                tell(
                    &self.rt,
                    self.program,
                    Act::Read,
                    source.name.as_str(),
                    &error,
                );
                Err(fault(&mut self.faults, &mut self.stopped))
            }
        }
    }

    fn create_file(&mut self, name: &str) -> Result<(), Failed> {
        self.stopped = false;
        self.created = self.created.and(name);
        match fs::create(&self.rt, name) {
            Ok(file) => {
                self.target = Some(NamedFile::new(file, name));
                Ok(())
            }
            Err(error) => {
                tell(&self.rt, self.program, Act::Create, name, &error);
                Err(fault(&mut self.faults, &mut self.stopped))
            }
        }
    }

    fn write(&mut self, bytes: &[u8]) -> Result<usize, Failed> {
        self.stopped = false;
        if let Some(target) = &mut self.target {
            match some_of(target.file.write(bytes)) {
                Ok(count) => return Ok(count),
                Err(error) => tell(
                    &self.rt,
                    self.program,
                    Act::Write,
                    target.name.as_str(),
                    &error,
                ),
            }
        }
        Err(fault(&mut self.faults, &mut self.stopped))
    }

    fn say(&mut self, bytes: &[u8]) -> Result<usize, Failed> {
        self.stopped = false;
        match said(&self.rt, bytes) {
            Ok(count) => Ok(count),
            Err(error) => {
                tell(&self.rt, self.program, Act::Say, "standard output", &error);
                Err(fault(&mut self.faults, &mut self.stopped))
            }
        }
    }
}

// What was written of some bytes, where nothing is a failure.
fn some_of(written: io::Result<usize>) -> io::Result<usize>
    ensures some { IfOk result (λ k. 0 < k) }
    ensures same { IfOk result (λ k. written ≡ Ok k) }
{
    match written {
        Ok(0) => Err(Error::from(ErrorKind::WriteZero)),
        written => written,
    }
}

// Writes some of the bytes to standard output, and answers how many, which are not none.
fn said(rt: &impl Print, bytes: &[u8]) -> io::Result<usize>
    ensures bound { IfOk result (λ k. k ≤ length bytes.now) }
    ensures some { IfOk result (λ k. 0 < k) }
{
    let mut out = io::writer(rt);
    let count = some_of(out.write(bytes))?;
    out.flush()?;
    Ok(count)
}
