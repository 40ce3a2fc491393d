// What a person reads on standard error.

pub(crate) const NAME: &str = "slabcheck";

// The commands and the options, a line each, and the statuses.
pub(crate) const USAGE: &str = "usage: slabcheck COMMAND WORD.. [OPTION]..
  check ORDERS CERT        says what the certificate CERT proves of the orders, or its first bad line
  --yard FILE              the surplus slabs in the yard, and which orders are barred from them
  --colours P              at most P colours on a slab, from 1 to 3; 2 without it
status: 0 the whole Pareto front, 1 a wrong command, 2 a bad file, 3 a beginning of the front, 4 no legal plan,
        5 the outside failed, 6 no memory, 7 a bad certificate
";
