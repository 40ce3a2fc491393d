//! A desk of which one call fails, told by its number, and what is left of a run that goes on after it.
use slab_desk::{Act, Desk, MemDesk, ReadFail, read_all, say_all, write_all};
use std::alloc::{AllocError, Global};
use std::test::Fail;

fn desk_of(alloc: Global, failing: Vec<(Act, u32)>) -> Result<MemDesk, AllocError> {
    let mut files = Vec::new(alloc);
    files.push((String::from_str(alloc, "orders")?, b"1 10".to_vec(alloc)?))?;
    files.push((String::from_str(alloc, "yard")?, Vec::new(alloc)))?;
    MemDesk::new(alloc, files, 3, failing, 16)
}

// The call that fails, whether the file is read then, what is stored and said, and how many calls failed.
type Row = (Act, u32, bool, Option<&'static str>, &'static str, u64);

fn rows() -> [Row; 11] {
    const DONE: Option<&'static str> = Some("done\n");
    [
        (Act::OpenFile, 1, false, DONE, "front", 1),
        (Act::OpenFile, 2, true, DONE, "front", 0),
        (Act::Read, 1, false, DONE, "front", 1),
        (Act::Read, 3, false, DONE, "front", 1),
        (Act::Read, 4, true, DONE, "front", 0),
        (Act::Create, 1, true, None, "front", 1),
        (Act::Write, 1, true, Some(""), "front", 1),
        (Act::Write, 2, true, Some("don"), "front", 1),
        (Act::Say, 1, true, DONE, "", 1),
        (Act::Say, 2, true, DONE, "fro", 1),
        (Act::Say, 3, true, DONE, "front", 0),
    ]
}

// Whether the file could be read. What comes after it is tried whatever fails.
fn is_read(alloc: Global, desk: &mut MemDesk) -> bool {
    let read = read_all(alloc, desk, "orders", 4).is_ok();
    if desk.create_file("cert").is_ok() {
        let _ = write_all(desk, b"done\n");
    }
    let _ = say_all(desk, b"front");
    read
}

fn holds(desk: &MemDesk, stored: Option<&str>) -> bool {
    match (desk.file("cert"), stored) {
        (Some(bytes), Some(text)) => bytes == text.as_bytes(),
        (None, None) => true,
        _ => false,
    }
}

#[test]
fn the_call_in_the_table_fails(rt: HostRuntime) -> Result<(), Fail> {
    let alloc = rt.alloc();
    for (act, call, read, stored, said, faults) in rows() {
        let mut desk = desk_of(alloc, vec![in alloc; (act, call)]?)?;
        assert!(rt; is_read(alloc, &mut desk) == read, "{act:?} {call}");
        let ends = holds(&desk, stored) && desk.said() == said.as_bytes();
        assert!(rt; ends && desk.faults() == faults, "{act:?} {call}");
    }
    Ok(())
}

fn is_long(alloc: Global, desk: &mut MemDesk, limit: usize) -> bool {
    matches!(read_all(alloc, desk, "orders", limit), Err(ReadFail::Long))
}

#[test]
fn a_file_past_the_limit_is_long(rt: HostRuntime) -> Result<(), Fail> {
    let alloc = rt.alloc();
    let mut desk = desk_of(alloc, Vec::new(alloc))?;
    assert!(rt; is_long(alloc, &mut desk, 3));
    let orders = read_all(alloc, &mut desk, "orders", 4)?;
    let yard = read_all(alloc, &mut desk, "yard", 0)?;
    assert!(rt; orders.as_slice() == b"1 10".as_slice() && yard.is_empty() && !desk.stopped());
    assert!(rt; matches!(read_all(alloc, &mut desk, "plan", 4), Err(ReadFail::Fault)));
    assert!(rt; desk.stopped() && desk.faults() == 1);
    assert!(rt; desk.calls(Act::OpenFile) == 4 && desk.calls(Act::Read) == 6);
    Ok(())
}
