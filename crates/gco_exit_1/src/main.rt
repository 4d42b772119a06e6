//! `gco` once more, run on an energy that is refused: status 1.
#![tactic(auto)]

use gco_cli::run_program;
use std::process::ExitCode;

fn main(rt: HostRuntime) -> ExitCode {
    run_program(&rt, rt.stdin(), rt.stdout(), rt.stderr())
}
