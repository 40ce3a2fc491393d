// The program `slabfront`: it hands its words and the real files to `run`, and ends with its status.
#![tactic(auto)]

mod ended;
mod usage;

use ended::ended;
use program_start::start;
use slab_desk::RealDesk;
use slab_node::Tally;
use std::process::ExitCode;
use usage::NAME;

fn main(rt: HostRuntime) -> ExitCode {
    let mut desk = RealDesk::new(&rt, NAME);
    ended(rt.alloc(), &rt, start(&rt), &mut desk, &mut Tally::new())
}
