// Deep trees, and lines of great length.
use crate::row::{STUCK, ends_so, lines};
use front_check::{Checker, LineWhy, Verdict};
use mill_model::Mill;
use mill_read::{read_orders, read_yard};
use std::alloc::{AllocError, Global};
use std::test::Fail;

// The greatest mill: 250 orders that no size holds, and 40 surplus slabs that hold none.
const QUESTIONS: u64 = 41_125;

// A text, so many times one behind the other, behind its beginning.
fn repeated(alloc: Global, begin: &str, text: &str, count: u16) -> Result<String, AllocError> {
    let mut whole = format!(in alloc; "{begin}")?;
    for _ in 0..count {
        whole.push_str(text)?;
    }
    Ok(whole)
}

fn mill(alloc: Global) -> Result<Mill, Fail> {
    let orders = repeated(alloc, "1 4 1 250", " 5 1", 250)?;
    let mut mill = read_orders(alloc, orders.as_bytes())?;
    let slabs = repeated(alloc, "40", " 4", 40)?;
    let yard = read_yard(alloc, &mill, slabs.as_bytes())?;
    mill.put_yard(yard);
    Ok(mill)
}

// A leaf whose prices are 0, but for that of the first order.
fn leaf(alloc: Global) -> Result<String, AllocError> {
    let mut line = repeated(alloc, "leaf 0 0 1", " 0", 289)?;
    line.push_str("\n")?;
    Ok(line)
}

// All questions, each below the answer yes of the one before.
fn feed_questions(alloc: Global, checker: &mut Checker<'_>) -> Result<(), AllocError> {
    for i in 1..250u16 {
        for j in i + 1..251 {
            checker.feed(format!(in alloc; "pair {i} {j}\n")?.as_bytes());
        }
    }
    for o in 1..251u16 {
        for s in 1..41u16 {
            checker.feed(format!(in alloc; "put {o} {s}\n")?.as_bytes());
        }
    }
    Ok(())
}

// What a checker says of the tree with all questions, the line after them, and so many leaves.
fn deep(alloc: Global, mill: &Mill, after: &str, leaves: u64) -> Result<Verdict, AllocError> {
    let line = leaf(alloc)?;
    let mut checker = Checker::new(alloc, mill)?;
    checker.feed(b"slabfront 1\n");
    checker.feed(b"done\n");
    feed_questions(alloc, &mut checker)?;
    checker.feed(after.as_bytes());
    for _ in 0..leaves {
        checker.feed(line.as_bytes());
    }
    Ok(checker.end())
}

#[test]
fn deep_trees(rt: HostRuntime) -> Result<(), Fail> {
    let mill = mill(rt.alloc())?;
    let line = leaf(rt.alloc())?;
    let whole = deep(rt.alloc(), &mill, &line, QUESTIONS)?;
    assert!(rt; matches!(whole, Verdict::NoPlan));
    let short = deep(rt.alloc(), &mill, &line, QUESTIONS - 1)?;
    assert!(rt;
        matches!(
            short,
            Verdict::No {
                line: 82_253,
                why: LineWhy::End
            }
        )
    );
    let again = deep(rt.alloc(), &mill, "pair 1 2\n", QUESTIONS)?;
    assert!(rt;
        matches!(
            again,
            Verdict::No {
                line: 41_128,
                why: LineWhy::Repeat
            }
        )
    );
    Ok(())
}

// A number of 8,000 digits.
#[test]
fn long_numbers(rt: HostRuntime) -> Result<(), Fail> {
    let mut cert = lines(rt.alloc(), "slabfront 1 / done")?;
    cert.extend_from_slice(b"leaf 0 0 ")?;
    cert.extend_from_slice(&[b'9'; 8000])?;
    cert.push(b'\n')?;
    let so = ends_so(rt.alloc(), STUCK, &cert, 7, "certificate line 3 range")?;
    assert!(rt; so);
    Ok(())
}

// 8,192 bytes without a line feed.
#[test]
fn a_line_without_an_end(rt: HostRuntime) -> Result<(), Fail> {
    let mill = mill(rt.alloc())?;
    let mut checker = Checker::new(rt.alloc(), &mill)?;
    checker.feed(&[b'x'; 8191]);
    assert!(rt; !checker.failed());
    checker.feed(b"x");
    assert!(rt; checker.failed());
    assert!(rt;
        matches!(
            checker.end(),
            Verdict::No {
                line: 1,
                why: LineWhy::Spelling
            }
        )
    );
    Ok(())
}
