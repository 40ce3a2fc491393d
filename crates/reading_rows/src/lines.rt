//! Lines of certificates.
use cert_view::{CertView, Line, Nums, Spelling};
use std::test::Fail;

// The first word, or the whole line of a header.
pub(crate) fn name_of(line: &Line<'_>) -> &'static str {
    match line {
        Line::Header => "slabfront 1",
        Line::Header2 => "slabfront 2",
        Line::Point(_) => "point",
        Line::New(_) => "new",
        Line::Old(_) => "old",
        Line::Pair(_) => "pair",
        Line::Put(_) => "put",
        Line::Leaf(_) => "leaf",
        Line::Done => "done",
        Line::Cut => "cut",
        Line::Open => "open",
        Line::Bare => "bare",
        Line::Plain => "plain",
        Line::Spread(_) => "spread",
        Line::CNew(_) => "cnew",
        Line::COld(_) => "cold",
    }
}

fn numbers_of<'b, 'a>(line: &'b Line<'a>) -> Option<&'b Nums<'a>> {
    match line {
        Line::Point(numbers)
        | Line::New(numbers)
        | Line::Old(numbers)
        | Line::Pair(numbers)
        | Line::Put(numbers)
        | Line::Leaf(numbers)
        | Line::Spread(numbers)
        | Line::CNew(numbers)
        | Line::COld(numbers) => Some(numbers),
        Line::Header
        | Line::Header2
        | Line::Done
        | Line::Cut
        | Line::Open
        | Line::Bare
        | Line::Plain => None,
    }
}

// Whether the numbers are these, read in turn and in one pass.
fn are(numbers: &Nums<'_>, wanted: &[i64]) -> bool {
    if numbers.len() != wanted.len()
        || numbers.is_empty() != wanted.is_empty()
        || wanted.len() > 8
    {
        return false;
    }
    let mut copy = [7; 8];
    let out = &mut copy[..wanted.len()];
    numbers.copy_to(out);
    for (i, number) in wanted.iter().enumerate() {
        if out[i] != *number || numbers.get(i) != *number {
            return false;
        }
    }
    true
}

pub(crate) fn is(line: &Line<'_>, name: &str, numbers: &[i64]) -> bool {
    name_of(line) == name
        && match numbers_of(line) {
            Some(found) => are(found, numbers),
            None => numbers.is_empty(),
        }
}

// Whether the text is one line, which has this name and these numbers.
fn spells(text: &str, name: &str, numbers: &[i64]) -> bool {
    let mut view = CertView::new(text.as_bytes());
    match view.next() {
        Some(Ok(line)) => is(&line, name, numbers) && view.next().is_none(),
        _ => false,
    }
}

// A line, its name, and its numbers.
type Good = (&'static str, &'static str, &'static [i64]);

fn good_lines() -> [Good; 18] {
    [
        ("slabfront 1\n", "slabfront 1", &[]),
        ("slabfront 2\n", "slabfront 2", &[]),
        ("point 0 2\n", "point", &[0, 2]),
        ("new 10 1 2\n", "new", &[10, 1, 2]),
        ("old 1 3\n", "old", &[1, 3]),
        ("pair 1 2\n", "pair", &[1, 2]),
        ("put 12 1\n", "put", &[12, 1]),
        ("leaf 1 0 5 5 -5\n", "leaf", &[1, 0, 5, 5, -5]),
        ("done\n", "done", &[]),
        ("cut\n", "cut", &[]),
        ("open\n", "open", &[]),
        ("bare\n", "bare", &[]),
        ("plain\n", "plain", &[]),
        ("spread 2\n", "spread", &[2]),
        ("cnew 1 10 1 3\n", "cnew", &[1, 10, 1, 3]),
        ("cold 1 2 3\n", "cold", &[1, 2, 3]),
        (
            "leaf 0 0 -4611686018427387904\n",
            "leaf",
            &[0, 0, -4611686018427387904],
        ),
        (
            "leaf 0 0 4611686018427387904\n",
            "leaf",
            &[0, 0, 4611686018427387904],
        ),
    ]
}

#[test]
fn a_line_has_its_form(rt: HostRuntime) {
    for (text, name, numbers) in good_lines() {
        assert!(rt; spells(text, name, numbers), "{text}");
    }
}

// Whether the text is one line, which fails so.
fn fails(text: &[u8], why: Spelling) -> bool {
    let mut view = CertView::new(text);
    match view.next() {
        Some(Err(found)) => found == why && view.next().is_none(),
        _ => false,
    }
}

#[test]
fn a_line_has_no_form(rt: HostRuntime) {
    for text in [
        "leaf 0 0 01\n",
        "leaf 0 0 -0\n",
        "leaf 0  0\n",
        "leaf 0 0 \n",
        " leaf 0 0\n",
        "leaf 0 0",
        "leaf 0\n",
        "\n",
        "slabfront 3\n",
        "point 1\n",
        "pair 1 2 3\n",
        "done 1\n",
        "leave 0 0\n",
        "spread\n",
        "bare 1\n",
        "cnew 1 10\n",
    ] {
        assert!(rt; fails(text.as_bytes(), Spelling::Form), "{text}");
    }
}

#[test]
fn a_number_is_out_of_range(rt: HostRuntime) {
    assert!(rt; fails(b"leaf 0 0 4611686018427387905\n", Spelling::Range));
    assert!(rt; fails(b"leaf 0 0 -4611686018427387905\n", Spelling::Range));
    let mut text = [b'9'; 8010];
    text[..9].copy_from_slice(b"leaf 0 0 ");
    text[8009] = b'\n';
    assert!(rt; fails(&text, Spelling::Range));
}

// Writes a head, then spaces and zeros in turn, and a line feed at the end.
fn write_line(text: &mut [u8], head: &[u8]) {
    let end = text.len();
    for (i, byte) in text.iter_mut().enumerate() {
        *byte = if i < head.len() {
            head[i]
        } else if i + 1 == end {
            b'\n'
        } else if (i - head.len()) % 2 == 0 {
            b' '
        } else {
            b'0'
        };
    }
}

// How many numbers the leaf has that the text begins with, and 0 where it begins with none.
fn count_of_leaf(text: &[u8]) -> usize {
    match CertView::new(text).next() {
        Some(Ok(Line::Leaf(numbers))) => numbers.len(),
        _ => 0,
    }
}

#[test]
fn a_line_has_at_most_8192_bytes(rt: HostRuntime) {
    let mut text = [b'x'; 8193];
    write_line(&mut text[..8192], b"leaf 10");
    assert!(rt; count_of_leaf(&text) == 4093);
    write_line(&mut text, b"leaf 10 10");
    assert!(rt; fails(&text, Spelling::Form));
}

// What the next line of a view is.
fn told(view: &mut CertView<'_>) -> &'static str {
    match view.next() {
        Some(Ok(line)) => name_of(&line),
        Some(Err(Spelling::Form)) => "form",
        Some(Err(Spelling::Range)) => "range",
        None => "none",
    }
}

#[test]
fn a_view_stands_after_each_line(rt: HostRuntime) {
    let mut view = CertView::new(b"pair 1 -0\npair 1 9999999999999999999\n\npair 1 2\npair 1 2");
    for wanted in ["form", "range", "form", "pair", "form", "none"] {
        assert!(rt; told(&mut view) == wanted, "{wanted}");
    }
}
