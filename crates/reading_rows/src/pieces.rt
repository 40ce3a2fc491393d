//! Lines of certificates in pieces.
ghost use Rattle.std.specs.Prelude.{◌≡◌, []};

use crate::lines::is;
use cert_view::{LineBuf, Spelling};
use std::test::Fail;

// Whether the buffer holds a line of this name and these numbers.
fn has(buffer: &LineBuf, name: &str, numbers: &[i64]) -> bool {
    match buffer.line() {
        Some(Ok(line)) => is(&line, name, numbers),
        _ => false,
    }
}

#[test]
fn a_line_comes_in_pieces(rt: HostRuntime) {
    let mut buffer = LineBuf::new();
    assert!(rt; buffer.feed(b"pa") == 2);
    assert!(rt; buffer.line().is_none());
    assert!(rt; buffer.feed(b"ir 1 2\nopen\n") == 7);
    assert!(rt; buffer.held() == 9 && has(&buffer, "pair", &[1, 2]));
    buffer.clear();
    assert!(rt; buffer.held() == 0);
    assert!(rt; buffer.feed(b"open\n") == 5 && has(&buffer, "open", &[]));
}

#[test]
fn a_buffer_is_full_at_8192_bytes(rt: HostRuntime) {
    let mut buffer = LineBuf::new();
    assert!(rt; buffer.feed(&[b'x'; 8191]) == 8191);
    assert!(rt; buffer.line().is_none());
    assert!(rt; buffer.feed(b"xxx") == 1 && buffer.held() == 8192);
    assert!(rt; matches!(buffer.line(), Some(Err(Spelling::Form))));
}
