//! `gco` once more, run on words that are no command: status 2.
#![tactic(auto)]

use gco_cli::run_program;
use std::process::ExitCode;

fn main(rt: HostRuntime) -> ExitCode {
    run_program(&rt, rt.stdin(), rt.stdout(), rt.stderr())
}
