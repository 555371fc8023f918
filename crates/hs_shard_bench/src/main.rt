//! A shard's catalogue that is filled and swept, to be measured from outside (bench/shard.py).
#![tactic(auto)]

mod entries;
mod filling;
mod plan;
mod running;
mod steps;
mod taking;
mod words;

use std::process::ExitCode;

fn main(rt: HostRuntime) -> ExitCode {
    let mut out = rt.stdout();
    match words::do_words(&rt, &mut out) {
        Ok(true) => ExitCode::from(0),
        _ => ExitCode::from(1),
    }
}
