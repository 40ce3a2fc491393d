//! A file of the system.
use slab_desk::{Desk, ReadFail, RealDesk, read_all, say_all, write_all};
use std::fs;
use std::test::Fail;

const NAME: &str = "reading_rows_round_trip";

#[test]
fn a_file_goes_out_and_comes_back(rt: HostRuntime) -> Result<(), Fail> {
    let alloc = rt.alloc();
    let mut desk = RealDesk::new(&rt, "reading_rows");
    assert!(rt; desk.open_file("reading_rows_no_such_file").is_err());
    assert!(rt; desk.write(b"1").is_err(), "nothing was created");
    desk.create_file(NAME)?;
    write_all(&mut desk, b"1 10\n")?;
    let bytes = read_all(alloc, &mut desk, NAME, 5)?;
    assert!(rt; bytes.as_slice() == b"1 10\n".as_slice());
    let long = read_all(alloc, &mut desk, NAME, 4);
    assert!(rt; matches!(long, Err(ReadFail::Long)));
    fs::remove_file(&rt, NAME)?;
    say_all(&mut desk, b"1 10\n")?;
    Ok(())
}
