//! The program `dnslines`: answers each line of the standard input by a line on the standard output.
#![tactic(auto)]

use dns_lines::run_lines;
use dns_text::{Args, ReadSource, WriteSink, process_words};
use std::process::ExitCode;

fn main(rt: HostRuntime) -> ExitCode {
    let words = match process_words(&rt) {
        Ok(words) => words,
        Err(error) => return ExitCode::from(error.code()),
    };
    let status = run_lines(
        rt.alloc(),
        &Args::new(words),
        &mut ReadSource::new(rt.stdin()),
        &mut WriteSink::new(rt.stdout()),
        &mut WriteSink::new(rt.stderr()),
    );
    ExitCode::from(status.code())
}
