//! The libraries with a call on whole texts, and how a run of each ends.

use dns_canon::{Status, Words, run};
use dns_denial::{DenialStatus, run_denial};
use dns_lines::{LinesStatus, run_lines};
use dns_normal::{NormalStatus, run_normal};
use dns_text::{Args, TextSink, TextSource};
use dns_zone::{ZoneStatus, run_zone};
use std::alloc::{AllocError, Global};
use std::fmt::Debug;

/// A library with a call on whole texts.
#[derive(Clone, Copy)]
pub(crate) enum Library {
    Canon,
    Zone,
    Normal,
    Denial,
    Lines,
}

impl Library {
    /// The library of this name.
    pub(crate) fn named(name: &str) -> Library {
        match name {
            "zone" => Library::Zone,
            "normal" => Library::Normal,
            "denial" => Library::Denial,
            "lines" => Library::Lines,
            _ => Library::Canon,
        }
    }
}

fn canon_status(
    alloc: Global,
    words: &Words,
    source: &mut TextSource<'_>,
    sink: &mut TextSink<'_>,
    notes: &mut TextSink<'_>,
) -> Status {
    run(alloc, words, source, sink, notes)
}

fn zone_status(
    alloc: Global,
    args: &Args,
    source: &mut TextSource<'_>,
    sink: &mut TextSink<'_>,
    notes: &mut TextSink<'_>,
) -> ZoneStatus {
    run_zone(alloc, args, source, sink, notes)
}

fn normal_status(
    alloc: Global,
    args: &Args,
    source: &mut TextSource<'_>,
    sink: &mut TextSink<'_>,
    notes: &mut TextSink<'_>,
) -> NormalStatus {
    run_normal(alloc, args, source, sink, notes)
}

fn denial_status(
    alloc: Global,
    args: &Args,
    source: &mut TextSource<'_>,
    sink: &mut TextSink<'_>,
    notes: &mut TextSink<'_>,
) -> DenialStatus {
    run_denial(alloc, args, source, sink, notes)
}

fn lines_status(
    alloc: Global,
    args: &Args,
    source: &mut TextSource<'_>,
    sink: &mut TextSink<'_>,
    notes: &mut TextSink<'_>,
) -> LinesStatus {
    run_lines(alloc, args, source, sink, notes)
}

/// A status as text, and its code.
fn shown(alloc: Global, status: &impl Debug, code: u8) -> Result<String, AllocError> {
    format!(in alloc; "{status:?}, {code}")
}

/// How a run of a library over devices in memory ends for words, as text.
pub(crate) fn ending_of(
    alloc: Global,
    library: Library,
    words: Vec<String>,
    source: &mut TextSource<'_>,
    sink: &mut TextSink<'_>,
    notes: &mut TextSink<'_>,
) -> Result<String, AllocError> {
    match library {
        Library::Canon => {
            let status = canon_status(alloc, &Words::new(words), source, sink, notes);
            shown(alloc, &status, status.code())
        }
        Library::Zone => {
            let status = zone_status(alloc, &Args::new(words), source, sink, notes);
            shown(alloc, &status, status.code())
        }
        Library::Normal => {
            let status = normal_status(alloc, &Args::new(words), source, sink, notes);
            shown(alloc, &status, status.code())
        }
        Library::Denial => {
            let status = denial_status(alloc, &Args::new(words), source, sink, notes);
            shown(alloc, &status, status.code())
        }
        Library::Lines => {
            let status = lines_status(alloc, &Args::new(words), source, sink, notes);
            shown(alloc, &status, status.code())
        }
    }
}
