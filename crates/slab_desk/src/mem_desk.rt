//! A desk in memory, which fails where it is told to.
ghost use Rattle.std.specs.Prelude.{◌≡◌, ◌≢◌, ◌⊎◌, ◌<◌, ◌≤◌, ◌↔◌, ◌-◌, ◌++◌, length, min, take, drop, None, Some, IsErr, IfOk, OnOk, OnErr, All, AllPairs, MatchOption, vec_len};
ghost use Rattle.std.specs.FinMap.{get};
ghost use Rattle.std.specs.Result.{is_err};
ghost use Rattle.std.specs.Vec.{vec_capacity};
ghost use Rattle.slab_desk.specs.Calls.{count_of};
ghost use Rattle.slab_desk.specs.Causes.{HasCause};
ghost use Rattle.slab_desk.specs.Desk.{Answers, Opens, Reads, Creates, Appends, Says, HasFile};
ghost use Rattle.slab_desk.specs.MemFile.{entries, HasRoom};
ghost use Rattle.slab_desk.specs.Start.{first_state, listed, names};
ghost use Rattle.slab_desk.specs.Names.{with_opened, with_created};
ghost use Rattle.slab_desk.specs.State.{IsToFail, CannotMake, IsFullFor, TargetIsFullFor, moved, after_fault, asked_to_open, asked_to_create, AfterOpen, after_read, after_create, AfterWrite, after_say};

use crate::calls::{Act, Calls, fails};
use crate::desk::{Desk, Failed, fault};
use crate::mem_file::{MemFile, position, target_place};
use crate::noted::Noted;
use crate::reserved::Reserved;
use std::alloc::{AllocError, Global};
use std::marker::Model;

/// Files, what is said and each failure, all in memory, so that a test can see them. It tells everything.
#[derive(Drop)]
pub struct MemDesk {
    files: Vec<MemFile>,
    spare: Option<MemFile>,
    left: Reserved,
    at: usize,
    target: Option<usize>,
    said: Reserved,
    piece: usize,
    failing: Vec<(Act, u32)>,
    room: usize,
    calls: Calls,
    faults: u64,
    stopped: bool,
    opened: Noted,
    created: Noted,
}

impl Model for MemDesk {
    ghost use Rattle.std.specs.Coded.{codes};
    ghost use Rattle.slab_desk.specs.Desk.{files_code};
    ghost use Rattle.slab_desk.specs.State.{DeskState};

    ghost Value = { DeskState };

    ghost coded = { Prim.hlevel (codes, files_code) };

    ghost use Rattle.slab_desk.specs.Memory.{state_of, IsReady};

    ghost view = { state_of };

    ghost invariant = { IsReady };
}

impl MemDesk {
    /// A desk with these files that moves at most `piece` bytes in one call. A pair `(act, k)` in `failing` makes the k-th
    /// call of that kind fail, counted from 1.
    ///
    /// Takes the memory for `room` bytes for each file, for one new file and its name, for what is left to read and for what
    /// is said; no later call takes any.
    pub fn new(
        alloc: Global,
        files: Vec<(String, Vec<u8>)>,
        piece: usize,
        failing: Vec<(Act, u32)>,
        room: usize,
    ) -> Result<MemDesk, AllocError>
        requires piece { 0 < piece }
        requires distinct { AllPairs (λ a b. a ≢ b) (names files.items) }
        requires fits { All (λ file. length file.1.items ≤ room) files.items }
        ensures { IfOk result (λ desk. desk ≡ first_state files.items piece failing.items room) }
    {
        let spare = MemFile {
            name: String::with_capacity(alloc, room)?,
            bytes: Reserved::new(alloc, room)?,
        };
        let left = Reserved::new(alloc, room)?;
        let said = Reserved::new(alloc, room)?;
        let kept = keep(alloc, files, room)?;
        Ok(MemDesk {
            files: kept,
            spare: Some(spare),
            left,
            at: 0,
            target: None,
            said,
            piece,
            failing,
            room,
            calls: Calls {
                opens: 0,
                reads: 0,
                creates: 0,
                writes: 0,
                says: 0,
            },
            faults: 0,
            stopped: false,
            opened: Noted::none(),
            created: Noted::none(),
        })
    }

    /// The bytes of a file, where there is one of this name.
    pub fn file(&self, name: &str) -> Option<&[u8]>
        ensures { MatchOption result (get self.now.told.files name.now ≡ None) (λ bytes. HasFile name.now bytes.now self.now.told) }
    {
        match position(&self.files, name) {
            Some(place) => Some(self.files[place].bytes.bytes()),
            None => None,
        }
    }

    /// All that was said.
    pub fn said(&self) -> &[u8]
        ensures { result.now ≡ self.now.told.said }
    {
        self.said.bytes()
    }

    /// How many calls failed.
    pub fn faults(&self) -> u64
        ensures { result ≡ self.now.faults }
    {
        self.faults
    }

    /// Whether the last call failed; false where there was none.
    pub fn stopped(&self) -> bool
        ensures { result ≡ self.now.stopped }
    {
        self.stopped
    }

    /// How many calls of a kind there were. It stays at 2^32 - 1.
    pub fn calls(&self, act: Act) -> u32
        ensures { result ≡ min (count_of act self.now.calls) u32.MAX }
    {
        self.calls.of(act).min(u64::from(u32::MAX)) as u32
    }
}

// The files, each with this room, and a place for one more.
fn keep(
    alloc: Global,
    files: Vec<(String, Vec<u8>)>,
    room: usize,
) -> Result<Vec<MemFile>, AllocError>
    requires { All (λ file. length file.1.items ≤ room) files.items }
    ensures files { IfOk result (λ kept. entries kept.items ≡ listed files.items) }
    ensures room { IfOk result (λ kept. All (HasRoom room) kept.items) }
    ensures place { IfOk result (λ kept. vec_len kept < vec_capacity kept) }
{
    let mut kept = Vec::with_capacity(alloc, files.len() + 1)?;
    for (name, content) in files {
        let mut bytes = Reserved::new(alloc, room)?;
        bytes.append(content.as_slice());
        kept.push(MemFile { name, bytes })?;
    }
    Ok(kept)
}

impl Desk for MemDesk {
    ghost told = { λ desk. Some desk.told };

    ghost faults = { λ desk. desk.faults };

    ghost stopped = { λ desk. desk.stopped };

    ghost named = { λ desk. desk.named };

    fn open_file(&mut self, name: &str) -> Result<(), Failed>
        ensures opens { Answers result (Some self.old.told) (Some self.new.told) (λ _. Opens name.now) }
        ensures cause { HasCause self.old.faults self.new.faults result }
        ensures stopped { self.new.stopped ≡ is_err result }
        ensures named { self.new.named ≡ with_opened name.now self.old.named }

        ensures exact { IsErr result ↔ (IsToFail Act.OpenFile self.old ⊎ (get self.old.told.files name.now ≡ None)) }
        ensures ok { OnOk result (AfterOpen name.now (asked_to_open name.now self.old) self.new) }
        ensures err { OnErr result (self.new ≡ after_fault Act.OpenFile (asked_to_open name.now self.old)) }
    {
        self.stopped = false;
        self.opened = self.opened.and(name);
        let number = self.calls.count(Act::OpenFile);
        if !fails(&self.failing, Act::OpenFile, number) {
            if let Some(place) = position(&self.files, name) {
                self.left.clear();
                self.left.append(self.files[place].bytes.bytes());
                self.at = 0;
                return Ok(());
            }
        }
        Err(fault(&mut self.faults, &mut self.stopped))
    }

    fn read(&mut self, buf: &mut [u8]) -> Result<usize, Failed>
        ensures bound { IfOk result (λ k. k ≤ length buf.new) }
        ensures reads { Answers result (Some self.old.told) (Some self.new.told) (λ k. Reads k buf.new) }
        ensures cause { HasCause self.old.faults self.new.faults result }
        ensures stopped { self.new.stopped ≡ is_err result }
        ensures named { self.new.named ≡ self.old.named }

        ensures exact { IsErr result ↔ IsToFail Act.Read self.old }
        ensures count { IfOk result (λ k. k ≡ moved self.old (length self.old.told.left) (length buf.old)) }
        ensures buffer { IfOk result (λ k. buf.new ≡ take k self.old.told.left ++ drop k buf.old) }
        ensures ok { IfOk result (λ k. self.new ≡ after_read k self.old) }
        ensures err { OnErr result (self.new ≡ after_fault Act.Read self.old) }
        ensures kept { OnErr result (buf.new ≡ buf.old) }
    {
        self.stopped = false;
        let number = self.calls.count(Act::Read);
        if fails(&self.failing, Act::Read, number) {
            return Err(fault(&mut self.faults, &mut self.stopped));
        }
        let rest = &self.left.bytes()[self.at..];
        let count = self.piece.min(buf.len().min(rest.len()));
        buf[..count].copy_from_slice(&rest[..count]);
        self.at += count;
        Ok(count)
    }

    fn create_file(&mut self, name: &str) -> Result<(), Failed>
        ensures creates { Answers result (Some self.old.told) (Some self.new.told) (λ _. Creates name.now) }
        ensures cause { HasCause self.old.faults self.new.faults result }
        ensures stopped { self.new.stopped ≡ is_err result }
        ensures named { self.new.named ≡ with_created name.now self.old.named }

        ensures exact { IsErr result ↔ (IsToFail Act.Create self.old ⊎ CannotMake name.now self.old) }
        ensures ok { OnOk result (self.new ≡ after_create name.now (asked_to_create name.now self.old)) }
        ensures err { OnErr result (self.new ≡ after_fault Act.Create (asked_to_create name.now self.old)) }
    {
        self.stopped = false;
        self.created = self.created.and(name);
        let number = self.calls.count(Act::Create);
        if !fails(&self.failing, Act::Create, number) {
            if let Some(place) = position(&self.files, name) {
                self.files[place].bytes.clear();
                self.target = Some(place);
                return Ok(());
            }
            if name.len() <= self.room {
                if let Some(mut file) = self.spare.take() {
                    file.name.push_str(name).unwrap();
                    self.target = Some(self.files.len());
                    self.files.push(file).unwrap();
                    return Ok(());
                }
            }
        }
        Err(fault(&mut self.faults, &mut self.stopped))
    }

    fn write(&mut self, bytes: &[u8]) -> Result<usize, Failed>
        requires { 0 < length bytes.now }
        ensures bound { IfOk result (λ k. k ≤ length bytes.now) }
        ensures some { IfOk result (λ k. 0 < k) }
        ensures writes { Answers result (Some self.old.told) (Some self.new.told) (λ k. Appends (take k bytes.now)) }
        ensures cause { HasCause self.old.faults self.new.faults result }
        ensures stopped { self.new.stopped ≡ is_err result }
        ensures named { self.new.named ≡ self.old.named }

        ensures exact { IsErr result ↔ (IsToFail Act.Write self.old ⊎ (self.old.told.target ≡ None) ⊎ TargetIsFullFor bytes.now self.old) }
        ensures ok { IfOk result (λ k. AfterWrite bytes.now k self.old self.new) }
        ensures err { OnErr result (self.new ≡ after_fault Act.Write self.old) }
    {
        self.stopped = false;
        let number = self.calls.count(Act::Write);
        if !fails(&self.failing, Act::Write, number) {
            if let Some(place) = target_place(&self.files, self.target) {
                if let Some(count) = self.files[place].bytes.movable(bytes.len(), self.piece) {
                    self.files[place].bytes.append(&bytes[..count]);
                    return Ok(count);
                }
            }
        }
        Err(fault(&mut self.faults, &mut self.stopped))
    }

    fn say(&mut self, bytes: &[u8]) -> Result<usize, Failed>
        requires { 0 < length bytes.now }
        ensures bound { IfOk result (λ k. k ≤ length bytes.now) }
        ensures some { IfOk result (λ k. 0 < k) }
        ensures says { Answers result (Some self.old.told) (Some self.new.told) (λ k. Says (take k bytes.now)) }
        ensures cause { HasCause self.old.faults self.new.faults result }
        ensures stopped { self.new.stopped ≡ is_err result }
        ensures named { self.new.named ≡ self.old.named }

        ensures exact { IsErr result ↔ (IsToFail Act.Say self.old ⊎ IsFullFor bytes.now self.old.told.said self.old) }
        ensures count { IfOk result (λ k. k ≡ moved self.old (self.old.room - length self.old.told.said) (length bytes.now)) }
        ensures ok { IfOk result (λ k. self.new ≡ after_say (take k bytes.now) self.old) }
        ensures err { OnErr result (self.new ≡ after_fault Act.Say self.old) }
    {
        self.stopped = false;
        let number = self.calls.count(Act::Say);
        if !fails(&self.failing, Act::Say, number) {
            if let Some(count) = self.said.movable(bytes.len(), self.piece) {
                self.said.append(&bytes[..count]);
                return Ok(count);
            }
        }
        Err(fault(&mut self.faults, &mut self.stopped))
    }
}
