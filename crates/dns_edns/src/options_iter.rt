//! Going over the options of OPT data.

ghost use Rattle.std.specs.Prelude.{◌≡◌, true, ⊤};
ghost use Rattle.std.specs.Iterator.{YieldsFirstBy, item_count};
ghost use Rattle.std.proofs.Props.{props};
ghost use Rattle.dns_record.specs.Options.{is_options};
ghost use Rattle.dns_edns.specs.Suiting.{items_in, seen_item};

use crate::edns_option::{EdnsOption, known};
use crate::unparsed_option::UnparsedEdnsOption;
use dns_record::are_all_options;
use dns_wire::SplitBytes;
use std::alloc::AllocError;
use std::marker::Model;

/// Options in order: each as its code says, or unchanged if its data don't suit its code (RFC 6891
/// section 6.1.2). It is seen as what is still to come.
#[derive(Debug, Drop)]
pub struct EdnsOptionsIter<'a> {
    octets: &'a [u8],
    ghost are_options: { is_options octets.now ≡ true } by { Prim.hlevel props },
}

impl<'a> Model for EdnsOptionsIter<'a> {
    ghost use Rattle.std.specs.Prelude.{List, Result};
    ghost use Rattle.dns_record.specs.Options.{OptionSeen};
    ghost use Rattle.dns_edns.specs.Suiting.{Suited, items_in};

    ghost Value = { List (Result Suited OptionSeen) };

    ghost view = { λ i. items_in i.octets.now };
}

impl<'a> EdnsOptionsIter<'a> {
    /// Whether the octets are options one after another, perhaps none.
    pub fn is_options(bytes: &[u8]) -> bool
        ensures { result ≡ is_options bytes.now }
    {
        are_all_options(bytes)
    }

    /// Goes over the options. The condition is that the octets are options: `is_options` says so.
    pub fn new(options: &'a [u8]) -> EdnsOptionsIter<'a>
        requires { is_options options.now ≡ true }
        ensures { result ≡ items_in options.entry.now }
    {
        EdnsOptionsIter { octets: options }
    }

    /// The octets of the options that are still to come.
    pub fn remaining(&self) -> &'a [u8]
        ensures items { items_in result.now ≡ self.now }
        ensures whole { is_options result.now ≡ true }
    {
        self.octets
    }
}

impl<'a> Iterator for EdnsOptionsIter<'a> {
    type Item = Result<EdnsOption<'a>, UnparsedEdnsOption<'a>>;

    ghost next_gives = { YieldsFirstBy seen_item (λ items. items) };

    ghost remaining = { item_count (λ items. items) };

    /// The next option. It is `None` if none is left, and then always.
    fn next(&mut self) -> Option<Result<EdnsOption<'a>, UnparsedEdnsOption<'a>>> {
        match UnparsedEdnsOption::split_bytes(self.octets) {
            Ok((option, rest)) => {
                self.octets = rest;
                match known(&option) {
                    Ok(known) => Some(Ok(known)),
                    Err(_) => Some(Err(option)),
                }
            }
            Err(_) => None,
        }
    }
}

impl<'a> Clone for EdnsOptionsIter<'a> {
    ghost is_clone = { λ a b. b ≡ a };

    ghost is_infallible = { λ _. ⊤ };

    fn clone(&self) -> Result<EdnsOptionsIter<'a>, AllocError> {
        Ok(EdnsOptionsIter {
            octets: self.octets,
        })
    }
}
