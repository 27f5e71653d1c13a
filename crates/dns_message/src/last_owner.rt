//! The owner that was read last.

ghost use Rattle.std.specs.Prelude.{◌≡◌, ◌≤◌, ◌<◌, length, take, IfOk, IsTrue};
ghost use Rattle.dns_wire.specs.Names.{name_labels};
ghost use Rattle.dns_wire.specs.Octets.{Labels};
ghost use Rattle.dns_message.specs.Owners.{HasOwner, IsRepeated, ReadsOwner, WasRead};

use crate::canonical_owner::CanonicalOwner;
use crate::name_reader::NameReader;
use crate::owner_key::put_owner_key;
use dns_name::{CanonicalName, Name, NameBuf};
use std::alloc::{AllocError, Global};

/// The canonical octets and the key of the owner that was read last, and the place where it was read. Owners often repeat that of the record
/// before, octet by octet, and are then not read again.
#[derive(Drop)]
pub(crate) struct LastOwner {
    start: usize,
    end: usize,
    size: usize,
    octets: [u8; Name::MAX_SIZE],
    key: [u8; Name::MAX_SIZE],
}

impl LastOwner {
    /// No owner was read.
    pub(crate) fn none() -> LastOwner
        ensures { result.end ≡ 0 }
    {
        LastOwner {
            start: 0,
            end: 0,
            size: 0,
            octets: [0; Name::MAX_SIZE],
            key: [0; Name::MAX_SIZE],
        }
    }

    /// A name that was read at no place.
    pub(crate) fn of(name: &NameBuf) -> LastOwner
        ensures { HasOwner result name.now }
    {
        let size = name.composed_size();
        let mut octets = [0; Name::MAX_SIZE];
        name.build_lowercased_at(&mut octets, 0).unwrap();
        let mut key = [0; Name::MAX_SIZE];
        put_owner_key(&octets[..size], &mut key);
        LastOwner {
            start: 0,
            end: 0,
            size,
            octets,
            key,
        }
    }

    /// Makes it so that no owner was read.
    pub(crate) fn forget(&mut self)
        ensures { self.new.end ≡ 0 }
    {
        self.start = 0;
        self.end = 0;
    }

    /// The owner in canonical form.
    pub(crate) fn owner(&self) -> CanonicalOwner<'_>
        requires { (labels : Labels) × HasOwner self.now labels }
        ensures { result ≡ name_labels (take self.now.size self.now.octets) }
    {
        CanonicalOwner::new(&self.octets[..self.size], &self.key[..self.size])
    }

    /// Whether an owner was read, at this place or before it, and the octets that it was read from are at this place too.
    fn is_repeated(&self, contents: &[u8], start: usize) -> bool
        requires { self.now.start < self.now.end → self.now.end ≤ length contents.now }
        ensures repeated { IsTrue result → IsRepeated contents.now start self.now }
        ensures other { IsRepeated contents.now start self.now → IsTrue result }
    {
        if self.end <= self.start || start < self.start || contents.len() < start {
            return false;
        }
        contents[start..].starts_with(&contents[self.start..self.end])
    }

    /// Reads the owner at a place, and gives the place where it ends; `None` exactly if no name is there. `AllocError` is out of memory.
    pub(crate) fn read(
        &mut self,
        alloc: Global,
        names: &mut NameReader<'_>,
        start: usize,
    ) -> Result<Option<usize>, AllocError>
        requires { WasRead names.old self.old }
        ensures read { IfOk result (λ found. ReadsOwner names.old start found self.new) }
        ensures unchanged { names.new ≡ names.old }
    {
        let contents = names.contents();
        if self.is_repeated(contents, start) {
            self.end = start + (self.end - self.start);
            self.start = start;
            return Ok(Some(self.end));
        }
        let (octets, key) = (&mut self.octets, &mut self.key);
        let Some(span) = names.read_owner(alloc, start, octets, key)? else {
            return Ok(None);
        };
        self.start = start;
        self.end = span.end;
        self.size = span.size;
        Ok(Some(span.end))
    }
}
