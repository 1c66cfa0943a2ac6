//! The program `oz`: standard input is the text, and standard output takes the lines. What it does is `start` of `oz_runner`;
//! that `SystemWords` are the command line's, and that standard input and output are what is read and written, is shown by
//! the stored run of this program, which has no words, and by `examples/check`, which gives it words. It stands on
//! `oz_runner` and `oz_base`.
#![tactic(auto)]

use oz_base::{StdSink, StdSource};
use oz_runner::{SystemWords, start};
use std::process::ExitCode;

fn main(rt: HostRuntime) -> ExitCode {
    let mut source = StdSource::new(rt.stdin());
    let mut sink = StdSink::new(rt.stdout());
    start(&rt, SystemWords::new(&rt), &mut source, &mut sink)
}
