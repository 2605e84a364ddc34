//! The program: its words, standard input and standard output.
#![tactic(auto)]

use egl_judge::run;
use std::env;
use std::process::ExitCode;

fn main(rt: HostRuntime) -> ExitCode {
    ExitCode::from(run(&rt, env::args(&rt), rt.stdin(), rt.stdout()).number())
}
