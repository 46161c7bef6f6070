//! The program of the everyday tools, `ti-tic`, `ti-infocmp`, `ti-tput`, `ti-clear`, `ti-toe`,
//! `ti-tabs`, `ti-tset`, `ti-reset`, `ti-fmt` and `ti-lint`, by the name that it is called by.
#![tactic(auto)]

use everyday_tools::run;
use std::process::ExitCode;

fn main(rt: HostRuntime) -> ExitCode {
    ExitCode::from(run(&rt))
}
