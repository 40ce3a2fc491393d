//! The forms of a line but the headers: a word, and how many numbers follow it.
ghost use Rattle.std.specs.Prelude.{◌≡◌};
ghost use Rattle.cert_view.specs.Form.{form_named, form_of, takes};

// A form of a line of a word and numbers.
#[derive(Clone, Copy)]
pub(crate) enum Form {
    Point,
    New,
    Old,
    Pair,
    Put,
    Leaf,
    Done,
    Cut,
    Open,
    Bare,
    Plain,
    Spread,
    CNew,
    COld,
}

// The form of a line by its first word and how many numbers follow.
pub(crate) fn form_of(word: &[u8], count: usize) -> Option<Form>
    ensures { result ≡ form_of word.now count }
{
    let form = form_named(word)?;
    if takes(form, count) { Some(form) } else { None }
}

// The form that begins with a word, the more frequent ones first.
#[tactic(auto, unfolding(crate::specs::Form::form_named))]
fn form_named(word: &[u8]) -> Option<Form>
    ensures { result ≡ form_named word.now }
{
    if word == b"leaf".as_slice() {
        Some(Form::Leaf)
    } else if word == b"pair".as_slice() {
        Some(Form::Pair)
    } else if word == b"put".as_slice() {
        Some(Form::Put)
    } else if word == b"cnew".as_slice() {
        Some(Form::CNew)
    } else if word == b"cold".as_slice() {
        Some(Form::COld)
    } else if word == b"spread".as_slice() {
        Some(Form::Spread)
    } else if word == b"bare".as_slice() {
        Some(Form::Bare)
    } else if word == b"plain".as_slice() {
        Some(Form::Plain)
    } else if word == b"new".as_slice() {
        Some(Form::New)
    } else if word == b"old".as_slice() {
        Some(Form::Old)
    } else if word == b"point".as_slice() {
        Some(Form::Point)
    } else if word == b"open".as_slice() {
        Some(Form::Open)
    } else if word == b"done".as_slice() {
        Some(Form::Done)
    } else if word == b"cut".as_slice() {
        Some(Form::Cut)
    } else {
        None
    }
}

// Whether a line of a form has so many numbers.
fn takes(form: Form, count: usize) -> bool
    ensures { result ≡ takes form count }
{
    match form {
        Form::Done | Form::Cut | Form::Open | Form::Bare | Form::Plain => count == 0,
        Form::Spread => count == 1,
        Form::Point | Form::Pair | Form::Put => count == 2,
        Form::New | Form::Old | Form::Leaf => 2 <= count,
        Form::CNew | Form::COld => 3 <= count,
    }
}
