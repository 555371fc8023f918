//! Runs cases that lie in files, and tells which of them differ.
#![tactic(auto)]

mod case;
mod copies;
mod cost;
mod judge;
mod run;
mod runs;
mod show_run;
mod stops;
mod tally;
mod words;

use std::process::ExitCode;

fn main(rt: HostRuntime) -> ExitCode {
    let mut out = rt.stdout();
    match words::judge_words(&rt, &mut out) {
        Ok(true) => ExitCode::from(0),
        _ => ExitCode::from(1),
    }
}
