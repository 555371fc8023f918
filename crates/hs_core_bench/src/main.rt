//! A core with much or little at rest and then some rounds of events, to be measured from outside
//! (bench/core.py).
#![tactic(auto)]

mod asking;
mod blocks;
mod driving;
mod filling;
mod opening;
mod rounds;
mod words;

use std::process::ExitCode;

fn main(rt: HostRuntime) -> ExitCode {
    let mut out = rt.stdout();
    match words::do_words(&rt, &mut out) {
        Ok(true) => ExitCode::from(0),
        _ => ExitCode::from(1),
    }
}
