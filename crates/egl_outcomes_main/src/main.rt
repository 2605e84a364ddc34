//! The program: standard input and standard output.
#![tactic(auto)]

use egl_outcomes::run;
use std::process::ExitCode;

fn main(rt: HostRuntime) -> ExitCode {
    ExitCode::from(run(&rt, rt.stdin(), rt.stdout()).number())
}
