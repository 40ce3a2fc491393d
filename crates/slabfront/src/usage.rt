// What a person reads on standard error.

pub(crate) const NAME: &str = "slabfront";

// The commands and the options, a line each, and the statuses.
pub(crate) const USAGE: &str = "usage: slabfront COMMAND WORD.. [OPTION]..
  solve ORDERS CERT        says the Pareto front, a plan for each point, and stores its certificate in CERT
  resume ORDERS CUT CERT   goes on from the certificate CUT of an unfinished run, and stores CERT
  judge ORDERS PLAN        says whether a plan is legal, or the first rule that it breaks
  make N SEED              says the front of a made mill of N orders
  --yard FILE              the surplus slabs in the yard, and which orders are barred from them (not of make)
  --colours P              at most P colours on a slab, from 1 to 3; 2 without it (not of make)
  --nodes N                at most N nodes for each question, from 1; 1000000 without it (of solve and resume)
  --rounds R               better starts by R rounds, at most 10000; 0 without it (of solve and resume)
  --seed Z                 the number from which those rounds draw; 0 without it (of solve and resume)
status: 0 a whole answer, 1 a wrong command, 2 a bad file, 3 unfinished, 4 no legal plan,
        5 the outside failed, 6 no memory, 7 a bad certificate, 8 a plan that is not legal
";
