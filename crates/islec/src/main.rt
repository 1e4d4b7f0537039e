//! `islec`: compiles files of ISLE rules and answers queries by them.
#![tactic(auto)]

pub mod answer;
pub mod blocks;
pub mod cause;
pub mod disk;
pub mod explain;
pub mod format;
pub mod line;
pub mod missing;
pub mod perform;
pub mod program;
pub mod serve;
pub mod sources;
pub mod status;
pub mod terms;
pub mod warn;
pub mod watch;
pub mod watched;
pub mod world;

use std::process::ExitCode;

fn main(rt: HostRuntime) -> ExitCode {
    ExitCode::from(program::run(&rt))
}
