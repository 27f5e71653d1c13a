//! One call over all commands.

ghost use Rattle.std.specs.Prelude.{◌≡◌, map, string_bytes};
ghost use Rattle.dns_dispatch.specs.Dispatch.{Dispatched, first_is, names_denial};

use dns_canon::{Status, run};
use dns_denial::{DenialStatus, run_denial};
use dns_normal::{NormalStatus, run_normal};
use dns_text::{Args, Sink, Source};
use dns_zone::{ZoneStatus, run_zone};
use std::alloc::Global;

/// What the words of a command line came to.
#[derive(Clone, Copy, Debug)]
pub enum Answer {
    /// How `canon`, `same` or `make` ended, or that the words are no command.
    Canon(Status),
    /// How `zone` ended.
    Zone(ZoneStatus),
    /// How `normal` ended.
    Normal(NormalStatus),
    /// How `hash`, `covers`, `signed` or `keytags` ended.
    Denial(DenialStatus),
}

impl Answer {
    ghost use Rattle.dns_dispatch.specs.Dispatch.{code_of};

    /// The code of the status that it holds.
    pub fn code(&self) -> u8
        ensures { result ≡ code_of self.now }
    {
        match self {
            Answer::Canon(status) => status.code(),
            Answer::Zone(status) => status.code(),
            Answer::Normal(status) => status.code(),
            Answer::Denial(status) => status.code(),
        }
    }
}

/// Whether the first word is this.
fn is_first(args: &Args, word: &str) -> bool
    ensures { result ≡ first_is word.now args.now }
{
    match args.get(0) {
        Some(first) => first == word,
        None => false,
    }
}

/// Whether the first word is `hash`, `covers`, `signed` or `keytags`.
fn names_denial(args: &Args) -> bool
    ensures { result ≡ names_denial args.now }
{
    is_first(args, "hash")
        || is_first(args, "covers")
        || is_first(args, "signed")
        || is_first(args, "keytags")
}

/// Answers the words of a command line: `zone` by `run_zone`, `normal` by `run_normal`, `hash`, `covers`, `signed` and `keytags` by
/// `run_denial`, and all others by `run`.
pub fn dispatch<S: Source, K: Sink, N: Sink>(
    alloc: Global,
    words: Vec<String>,
    source: &mut S,
    sink: &mut K,
    notes: &mut N,
) -> Answer
    ensures { Dispatched S.Source K.Sink N.Sink (map string_bytes words.items) source.old source.new sink.old sink.new notes.old notes.new result }
{
    let args = Args::new(words);
    if is_first(&args, "zone") {
        Answer::Zone(run_zone(alloc, &args, source, sink, notes))
    } else if is_first(&args, "normal") {
        Answer::Normal(run_normal(alloc, &args, source, sink, notes))
    } else if names_denial(&args) {
        Answer::Denial(run_denial(alloc, &args, source, sink, notes))
    } else {
        Answer::Canon(run(alloc, &args, source, sink, notes))
    }
}
