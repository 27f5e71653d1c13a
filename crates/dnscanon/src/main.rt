//! The program `dnscanon`: answers the words of the command line over the standard streams.
#![tactic(auto)]

use dns_dispatch::dispatch;
use dns_text::{ReadSource, WriteSink, process_words};
use std::process::ExitCode;

fn main(rt: HostRuntime) -> ExitCode {
    let words = match process_words(&rt) {
        Ok(words) => words,
        Err(error) => return ExitCode::from(error.code()),
    };
    let answer = dispatch(
        rt.alloc(),
        words,
        &mut ReadSource::new(rt.stdin()),
        &mut WriteSink::new(rt.stdout()),
        &mut WriteSink::new(rt.stderr()),
    );
    ExitCode::from(answer.code())
}
