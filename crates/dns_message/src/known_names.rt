//! Names to which pointers of a message lead, each read once.

ghost use Rattle.std.specs.Prelude.{◌≡◌, ◌≤◌, ◌<◌, ◌+◌, ◌++◌, ◌∷◌, [], IfNone, IfSome, OnOk, Some, drop, length, take};
ghost use Rattle.std.specs.Str.{str_to_ascii_lowercase};
ghost use Rattle.dns_wire.specs.Octets.{Octets};
ghost use Rattle.dns_wire.specs.Names.{name_labels, plain_name};
ghost use Rattle.dns_wire.specs.Reading.{all_of};
ghost use Rattle.dns_message.specs.KnownNames.{IsKnown, KnowsNames};
ghost use Rattle.dns_message.specs.OwnerKeys.{owner_key};

use crate::owner_key::put_owner_key;
use dns_chain::NameSpan;
use dns_name::{Name, OwnLabels};
use dns_wire::copy_at;
use std::alloc::{AllocError, Global};

/// How many names are looked through one by one. Of more, each has a number at its place.
const FEW: usize = 4;

/// A name to which a pointer leads: its canonical octets, and its key where an owner went on there first.
#[derive(Drop)]
pub(crate) struct KnownName {
    /// Where the name is.
    pub(crate) target: usize,
    /// It is read in the octets before this place.
    pub(crate) bound: usize,
    /// How many octets the name has, and its key.
    pub(crate) size: usize,
    pub(crate) octets: [u8; Name::MAX_SIZE],
    pub(crate) key: Option<[u8; Name::MAX_SIZE]>,
}

impl KnownName {
    /// Puts the name after own labels, which are at the beginning of the buffer. `None` comes exactly if both together have more than 255 octets.
    pub(crate) fn join(&self, own: OwnLabels, octets: &mut [u8]) -> Option<NameSpan>
        requires size { (own.size < 255) × (self.now.size ≤ 255) }
        requires room { length octets.old ≡ 255 }
        ensures span { IfSome result (λ span. (span.size ≡ own.size + self.now.size) × (span.size ≤ 255) × (span.end ≡ own.end)) }
        ensures long { IfNone result (255 < own.size + self.now.size) }
        ensures unchanged { IfNone result (octets.new ≡ octets.old) }
        ensures octets { IfSome result (λ span. take span.size octets.new ≡ take own.size octets.old ++ take self.now.size self.now.octets) }
        ensures room { length octets.new ≡ 255 }
    {
        let size = own.size + self.size;
        if size > Name::MAX_SIZE {
            return None;
        }
        copy_at(&self.octets[..self.size], octets, own.size);
        let end = own.end;
        Some(NameSpan { size, end })
    }

    /// Puts the name after own labels as `join`, after which a root is in the buffer, and writes the key of both together, which begins with
    /// the name's key, to the beginning of a buffer.
    pub(crate) fn join_owner(
        &self,
        name_key: &[u8],
        own: OwnLabels,
        octets: &mut [u8],
        key: &mut [u8],
    ) -> Option<NameSpan>
        requires own { all_of (plain_name (take (own.size + 1) octets.old)) ≡ Some (name_labels (take (own.size + 1) octets.old)) }
        requires lowercase { str_to_ascii_lowercase (take (own.size + 1) octets.old) ≡ take (own.size + 1) octets.old }
        requires size { (own.size < 255) × (0 < self.now.size) × (self.now.size ≤ 255) }
        requires name_key { length (take self.now.size name_key.now) ≡ self.now.size }
        requires room { (length octets.old ≡ 255) × (length key.old ≡ 255) }
        ensures span { IfSome result (λ span. (span.size ≡ own.size + self.now.size) × (span.size ≤ 255) × (span.end ≡ own.end)) }
        ensures long { IfNone result (255 < own.size + self.now.size) }
        ensures unchanged { IfNone result (octets.new ≡ octets.old) }
        ensures octets { IfSome result (λ span. take span.size octets.new ≡ take own.size octets.old ++ take self.now.size self.now.octets) }
        ensures key { IfSome result (λ span. take span.size key.new ≡ take self.now.size name_key.now ++ drop 1 (owner_key (name_labels (take (own.size + 1) octets.old)))) }
        ensures room { (length octets.new ≡ 255) × (length key.new ≡ 255) }
    {
        if own.size + self.size > Name::MAX_SIZE {
            return None;
        }
        put_owner_key(&octets[..own.size + 1], &mut key[self.size - 1..]);
        copy_at(&name_key[..self.size], key, 0);
        self.join(own, octets)
    }
}

/// The names to which pointers of a message lead, in the order in which they were met.
#[derive(Drop)]
pub(crate) struct KnownNames {
    names: Vec<KnownName>,
    /// Empty for a few names. For more: at each place the number of the name there, from 1, or 0 if none is known.
    numbers: Vec<u16>,
}

/// Writes a number at a place.
fn put_number(numbers: &mut Vec<u16>, place: usize, number: u16) -> Result<(), AllocError> {
    let zeros = [0; 256];
    while numbers.len() <= place {
        numbers.extend_from_slice(&zeros)?;
    }
    numbers[place] = number;
    Ok(())
}

impl KnownNames {
    /// No names.
    pub(crate) fn none(alloc: Global) -> KnownNames
        ensures { (contents : Octets) → KnowsNames contents result }
    {
        KnownNames {
            names: Vec::new(alloc),
            numbers: Vec::new(alloc),
        }
    }

    /// No names, in the memory of these.
    pub(crate) fn cleared(self) -> KnownNames
        ensures { (contents : Octets) → KnowsNames contents result }
    {
        let KnownNames {
            mut names,
            mut numbers,
        } = self;
        names.clear();
        numbers.clear();
        KnownNames { names, numbers }
    }

    /// The first name at a target, looked for one by one.
    fn first_at(&self, target: usize) -> Option<&KnownName>
        ensures { IfSome result (λ name. (contents : Octets) → KnowsNames contents self.now → IsKnown contents target name.now) }
    {
        for name in &self.names {
            if name.target == target {
                return Some(name);
            }
        }
        None
    }

    /// The name at a target by its number.
    fn numbered_at(&self, target: usize) -> Option<&KnownName>
        ensures { IfSome result (λ name. (contents : Octets) → KnowsNames contents self.now → IsKnown contents target name.now) }
    {
        let number = *self.numbers.get(target)?;
        let before = usize::from(number).checked_sub(1)?;
        let name = self.names.get(before)?;
        if name.target != target {
            return None;
        }
        Some(name)
    }

    /// The name at a target, if it is known, and is read in the octets before `end`. `None` says nothing of the name.
    pub(crate) fn find(&self, target: usize, end: usize) -> Option<&KnownName>
        ensures known { IfSome result (λ name. (contents : Octets) → KnowsNames contents self.now → IsKnown contents target name.now) }
        ensures within { IfSome result (λ name. name.now.bound ≤ end) }
    {
        let name = if self.numbers.is_empty() {
            self.first_at(target)?
        } else {
            self.numbered_at(target)?
        };
        if name.bound <= end { Some(name) } else { None }
    }

    /// Gives the last name its number, and the first time all names.
    fn number_names(&mut self) -> Result<(), AllocError>
        ensures { self.new.names ≡ self.old.names }
    {
        let first = if self.numbers.is_empty() {
            0
        } else {
            self.names.len().saturating_sub(1)
        };
        for before in first..self.names.len() {
            let Ok(number) = u16::try_from(before + 1) else {
                return Ok(());
            };
            put_number(&mut self.numbers, self.names[before].target, number)?;
        }
        Ok(())
    }

    /// Keeps a name. `AllocError` is out of memory.
    pub(crate) fn keep(&mut self, name: KnownName) -> Result<(), AllocError>
        ensures known { (contents : Octets) → KnowsNames contents self.old → IsKnown contents name.target name → KnowsNames contents self.new }
        ensures kept { OnOk result (self.new.names.items ≡ self.old.names.items ++ name ∷ []) }
    {
        self.names.push(name)?;
        if self.names.len() > FEW {
            self.number_names()?;
        }
        Ok(())
    }
}
