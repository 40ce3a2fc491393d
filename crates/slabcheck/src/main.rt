// The program `slabcheck`: it hands its words and the real files to `check_run`, and ends with its status.
#![tactic(auto)]

mod ended;
mod usage;

use ended::ended;
use program_start::start;
use slab_desk::RealDesk;
use std::process::ExitCode;
use usage::NAME;

fn main(rt: HostRuntime) -> ExitCode {
    let mut desk = RealDesk::new(&rt, NAME);
    ended(rt.alloc(), &rt, start(&rt), &mut desk)
}
