/// How a row's sum stands to its right side.
#[derive(Clone, Copy, PartialEq, Eq, Debug)]
pub enum Sense {
    Equal,
    AtMost,
}
