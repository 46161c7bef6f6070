//! The program `ti`.
#![tactic(auto)]

use std::process::ExitCode;
use ti_tools::run;

fn main(rt: HostRuntime) -> ExitCode {
    ExitCode::from(run(&rt))
}
