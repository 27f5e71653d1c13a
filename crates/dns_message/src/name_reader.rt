//! Reading the names of a message at their places: after the first few, the names to which pointers lead are kept, and chains of pointers are
//! followed by their final targets.

ghost use Rattle.std.specs.Prelude.{◌≡◌, ◌≤◌, ◌<◌, ◌+◌, length, take, IfNone, IfOk, IfSome, MatchOption, Some, None};
ghost use Rattle.std.specs.Str.{str_to_ascii_lowercase};
ghost use Rattle.dns_wire.specs.Octets.{Labels};
ghost use Rattle.dns_wire.specs.Pointers.{name_at};
ghost use Rattle.dns_wire.specs.Reading.{AreOctets, all_of};
ghost use Rattle.dns_record.specs.Questions.{QuestionOf, question_in};
ghost use Rattle.dns_chain.specs.CanonicalNames.{HasOwnLabels, IsReadAs, IsReadOrNone};
ghost use Rattle.dns_message.specs.OwnerKeys.{owner_key};
ghost use Rattle.dns_wire.specs.Names.{name_labels, plain_name};

use crate::known_names::{KnownName, KnownNames};
use crate::owner_key::put_owner_key;
use crate::question_end::question_end;
use dns_chain::{FinalTargets, NameSpan, read_own_labels};
use dns_name::{Name, OwnLabels};
use std::alloc::{AllocError, Global};
use std::marker::Model;

/// How many names of a message are read whole, and not kept: a message with few names is read sooner so.
const FIRST_NAMES: usize = 8;

/// The contents of a message with the final targets of its pointers, and the names to which pointers led. It is seen as the contents.
#[derive(Drop)]
pub(crate) struct NameReader<'a> {
    targets: FinalTargets<'a>,
    known: KnownNames,
    /// How many of the first names were read, up to `FIRST_NAMES`.
    first: usize,
}

impl<'a> Model for NameReader<'a> {
    ghost use Rattle.dns_wire.specs.Octets.{Octets};
    ghost use Rattle.dns_wire.specs.Reading.{AreOctets};
    ghost use Rattle.dns_message.specs.KnownNames.{KnowsNames};

    ghost Value = { Octets };

    ghost view = { λ r. r.targets };

    ghost invariant = { λ r. AreOctets r.targets × KnowsNames r.targets r.known };
}

/// The whole name of own labels after which the root is.
fn span_of(own: OwnLabels) -> NameSpan
    requires { own.size < 255 }
    ensures { result ≡ record { size = own.size + 1; end = own.end } }
{
    let (size, end) = (own.size + 1, own.end);
    NameSpan { size, end }
}

/// The key of a name's canonical octets, if it is wanted.
fn key_if(is_wanted: bool, octets: &[u8]) -> Option<[u8; Name::MAX_SIZE]>
    requires name { all_of (plain_name octets.now) ≡ Some (name_labels octets.now) }
    requires lowercase { str_to_ascii_lowercase octets.now ≡ octets.now }
    requires size { length octets.now ≤ 255 }
    ensures { IfSome result (λ key. take (length octets.now) key ≡ owner_key (name_labels octets.now)) }
{
    if !is_wanted {
        return None;
    }
    let mut key = [0; Name::MAX_SIZE];
    put_owner_key(octets, &mut key);
    Some(key)
}

impl<'a> NameReader<'a> {
    /// Reads names of these contents, and keeps those to which pointers lead in the memory of others.
    pub(crate) fn new(contents: &'a [u8], earlier: KnownNames) -> NameReader<'a>
        ensures { result ≡ contents.entry.now }
    {
        NameReader {
            targets: FinalTargets::new(contents),
            known: earlier.cleared(),
            first: 0,
        }
    }

    /// The names that are kept, for the memory that they have.
    pub(crate) fn into_known(self) -> KnownNames {
        self.known
    }

    /// The contents.
    pub(crate) fn contents(&self) -> &'a [u8]
        ensures value { result.now ≡ self.now }
        ensures octets { AreOctets result.now }
    {
        self.targets.contents()
    }

    /// Whether the name that is read next is one of the first.
    fn is_first(&mut self) -> bool
        ensures { self.new ≡ self.old }
    {
        let is_first = self.first < FIRST_NAMES;
        if is_first {
            self.first += 1;
        }
        is_first
    }

    /// Reads the name at a place as `read_canonical_name`, whatever names are known.
    fn read_whole_name(
        &mut self,
        alloc: Global,
        start: usize,
        end: usize,
        buffer: &mut [u8],
    ) -> Result<Option<NameSpan>, AllocError>
        requires within { end ≤ length self.old }
        requires room { length buffer.old ≡ 255 }
        ensures read { IfOk result (λ span. IsReadOrNone (take end self.old) start buffer.new span) }
        ensures unchanged { self.new ≡ self.old }
        ensures room { length buffer.new ≡ 255 }
    {
        self.targets.read_canonical_name(alloc, start, end, buffer)
    }

    /// Keeps the name at a target, if one is read in the octets before a place, with its key if an owner goes on there. `AllocError` is out of memory.
    fn keep_name(
        &mut self,
        alloc: Global,
        target: usize,
        bound: usize,
        with_key: bool,
    ) -> Result<(), AllocError>
        requires { bound ≤ length self.old }
        ensures { self.new ≡ self.old }
    {
        let mut octets = [0; Name::MAX_SIZE];
        let Some(span) = self.read_whole_name(alloc, target, bound, &mut octets)? else {
            return Ok(());
        };
        let size = span.size;
        let key = key_if(with_key, &octets[..size]);
        self.known.keep(KnownName {
            target,
            bound,
            size,
            octets,
            key,
        })
    }

    /// The name at a place, of contents of which only those up to `end` are read, whose own labels are at the beginning of the buffer. `None` comes if
    /// the name where a pointer after these leads is not known, or both are too long together, and leaves the octets in the buffer.
    #[inline(always)]
    fn join_known(
        &self,
        own: OwnLabels,
        start: usize,
        end: usize,
        buffer: &mut [u8],
    ) -> Option<NameSpan>
        requires own { HasOwnLabels (take end self.now) start buffer.old own }
        requires within { end ≤ length self.now }
        requires room { length buffer.old ≡ 255 }
        ensures read { IfSome result (IsReadAs (take end self.now) start buffer.new) }
        ensures unchanged { IfNone result (buffer.new ≡ buffer.old) }
        ensures room { length buffer.new ≡ 255 }
    {
        let Some(target) = own.target else {
            return Some(span_of(own));
        };
        let base = self.known.find(target, start)?;
        base.join(own, buffer)
    }

    /// The owner at a place, whose own labels are at the beginning of the buffer, as `join_known`, and its key.
    #[inline(always)]
    fn join_known_owner(
        &self,
        own: OwnLabels,
        start: usize,
        octets: &mut [u8],
        key: &mut [u8],
    ) -> Option<NameSpan>
        requires own { HasOwnLabels self.now start octets.old own }
        requires room { (length octets.old ≡ 255) × (length key.old ≡ 255) }
        ensures read { IfSome result (IsReadAs self.now start octets.new) }
        ensures key { IfSome result (λ span. take span.size key.new ≡ owner_key (name_labels (take span.size octets.new))) }
        ensures unchanged { IfNone result (octets.new ≡ octets.old) }
        ensures room { (length octets.new ≡ 255) × (length key.new ≡ 255) }
    {
        let Some(target) = own.target else {
            put_owner_key(&octets[..own.size + 1], key);
            return Some(span_of(own));
        };
        let base = self.known.find(target, start)?;
        if let Some(base_key) = &base.key {
            return base.join_owner(base_key, own, octets, key);
        }
        let span = base.join(own, octets)?;
        put_owner_key(&octets[..span.size], key);
        Some(span)
    }

    /// Reads the name at a place, of contents of which only those up to `end` are read, and writes its octets in lowercase to the beginning
    /// of a buffer of 255 octets. `None` comes exactly if no name is there. `AllocError` is out of memory.
    pub(crate) fn read_canonical_name(
        &mut self,
        alloc: Global,
        start: usize,
        end: usize,
        buffer: &mut [u8],
    ) -> Result<Option<NameSpan>, AllocError>
        requires within { end ≤ length self.old }
        requires room { length buffer.old ≡ 255 }
        ensures read { IfOk result (λ span. IsReadOrNone (take end self.old) start buffer.new span) }
        ensures unchanged { self.new ≡ self.old }
        ensures room { length buffer.new ≡ 255 }
    {
        if self.is_first() {
            return self.read_whole_name(alloc, start, end, buffer);
        }
        let Some(own) = read_own_labels(&self.contents()[..end], start, buffer) else {
            return Ok(None);
        };
        let known = self.join_known(own, start, end, buffer);
        if known.is_some() {
            return Ok(known);
        }
        if let Some(target) = own.target {
            self.keep_name(alloc, target, start, false)?;
            let joined = self.join_known(own, start, end, buffer);
            if joined.is_some() {
                return Ok(joined);
            }
        }
        self.read_whole_name(alloc, start, end, buffer)
    }

    /// Reads the owner at a place as `read_owner`, whatever names are known.
    fn read_whole_owner(
        &mut self,
        alloc: Global,
        start: usize,
        octets: &mut [u8],
        key: &mut [u8],
    ) -> Result<Option<NameSpan>, AllocError>
        requires room { (length octets.old ≡ 255) × (length key.old ≡ 255) }
        ensures read { IfOk result (λ span. IsReadOrNone self.old start octets.new span) }
        ensures key { IfOk result (λ found. IfSome found (λ span. take span.size key.new ≡ owner_key (name_labels (take span.size octets.new)))) }
        ensures unchanged { self.new ≡ self.old }
    {
        let end = self.contents().len();
        let span = self.read_whole_name(alloc, start, end, octets)?;
        if let Some(span) = span {
            put_owner_key(&octets[..span.size], key);
        }
        Ok(span)
    }

    /// Reads the owner at a place, and writes its octets in lowercase and its key to the beginnings of buffers of 255 octets. `None` comes exactly
    /// if no name is there. `AllocError` is out of memory.
    pub(crate) fn read_owner(
        &mut self,
        alloc: Global,
        start: usize,
        octets: &mut [u8],
        key: &mut [u8],
    ) -> Result<Option<NameSpan>, AllocError>
        requires room { (length octets.old ≡ 255) × (length key.old ≡ 255) }
        ensures read { IfOk result (λ span. IsReadOrNone self.old start octets.new span) }
        ensures key { IfOk result (λ found. IfSome found (λ span. take span.size key.new ≡ owner_key (name_labels (take span.size octets.new)))) }
        ensures unchanged { self.new ≡ self.old }
    {
        if self.is_first() {
            return self.read_whole_owner(alloc, start, octets, key);
        }
        let Some(own) = read_own_labels(self.contents(), start, octets) else {
            return Ok(None);
        };
        let known = self.join_known_owner(own, start, octets, key);
        if known.is_some() {
            return Ok(known);
        }
        if let Some(target) = own.target {
            self.keep_name(alloc, target, start, true)?;
            let joined = self.join_known_owner(own, start, octets, key);
            if joined.is_some() {
                return Ok(joined);
            }
        }
        self.read_whole_owner(alloc, start, octets, key)
    }

    /// Where the question at a place ends; `None` exactly if no question is there. The buffer is of 255 octets. `AllocError` is out of memory.
    pub(crate) fn end_of_question(
        &mut self,
        alloc: Global,
        start: usize,
        buffer: &mut [u8],
    ) -> Result<Option<usize>, AllocError>
        requires room { length buffer.old ≡ 255 }
        ensures end { IfOk result (λ found. MatchOption found (question_in name_at self.old start ≡ None)
            (λ end. (q : QuestionOf Labels) × (question_in name_at self.old start ≡ Some (q, end)))) }
        ensures unchanged { self.new ≡ self.old }
        ensures room { length buffer.new ≡ 255 }
    {
        let contents = self.contents();
        match self.read_canonical_name(alloc, start, contents.len(), buffer)? {
            Some(span) => Ok(question_end(contents, span.end)),
            None => Ok(None),
        }
    }
}
