//! The program: it runs a store by a script from standard input, loads it by threads, keeps files in it, and looks
//! it over.
#![tactic(auto)]

mod command_line;
mod fault_count;
mod file_disk;
mod file_fault;
mod found_files;
mod help;
mod lost_disks;
mod notes;
mod piece;
mod retry;
mod run;
mod side_file;
mod stores;
mod straight;
mod streams;
mod unanswered;
mod usage;

use hs_top::exit_code;
use std::process::ExitCode;

#[cfg(test)]
mod tests;

fn main(rt: HostRuntime) -> ExitCode {
    let mut errors = rt.stderr();
    let status = run::run(&rt, rt.stdin(), rt.stdout(), &mut errors);
    let _ = run::report(rt.alloc(), &mut errors, &status);
    ExitCode::from(exit_code(&status))
}
