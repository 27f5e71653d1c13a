//! Names that are read, and what their labels are.

ghost use Rattle.std.specs.Prelude.{◌≡◌, ◌≤◌, ℕ, length, Some};
ghost use Rattle.std.proofs.Common.{refl};
ghost use Rattle.dns_wire.proofs.NamesLemmas.{plain_name_names, name_at_names, placed_names};
ghost use Rattle.dns_wire.specs.Names.{IsName, plain_name, name_labels};
ghost use Rattle.dns_wire.specs.Octets.{Octets, Labels};
ghost use Rattle.dns_wire.specs.Pointers.{name_at};
ghost use Rattle.dns_name.specs.UnparsedLemmas.{unparsed_names, unparsed_names_at};
ghost use Rattle.dns_name.specs.Unparsed.{unparsed_of};

use crate::canonical_name::CanonicalName;
use crate::name::Name;
use crate::name_buf::NameBuf;
use crate::rev_name_buf::RevNameBuf;
use crate::unparsed_name::UnparsedName;
use dns_wire::{ParseName, SplitMessageBytes};

/// A name that is read whole: the labels that are where it was read are those that it writes and compares
/// (RFC 1035 section 3.1, RFC 4034 section 6).
pub trait ReadName<'a>: ParseName<'a> + CanonicalName {
    /// What is read is the name at the start of the octets.
    ghost read: { (value : Self) (bytes rest : Octets) →
        Self.reads bytes ≡ Some (Self.seen value, rest) → plain_name bytes ≡ Some (Self.name value, rest) };

    /// Each name at the start of octets is read.
    ghost read_each: { (bytes : Octets) (labels : Labels) (rest : Octets) →
        plain_name bytes ≡ Some (labels, rest) → (seen : Self.Seen) × (Self.reads bytes ≡ Some (seen, rest)) };

    /// The labels that its value has are those that it writes.
    ghost layout_matches: { (value : Self) → Self.labels value ≡ Self.name value };
}

/// The same in a message, where pointers are followed (RFC 1035 section 4.1.4).
pub trait ReadMessageName<'a>: ReadName<'a> + SplitMessageBytes<'a> {
    /// What is read is the name at the place.
    ghost read_at: { (value : Self) (contents : Octets) (at end : ℕ) →
        Self.reads_at contents at ≡ Some (Self.seen value, end) → name_at contents at ≡ Some (Self.name value, end) };

    /// Each name at a place is read.
    ghost read_each_at: { (contents : Octets) (at : ℕ) (labels : Labels) (end : ℕ) →
        name_at contents at ≡ Some (labels, end) → (seen : Self.Seen) × (Self.reads_at contents at ≡ Some (seen, end)) };
}

impl<'a> ParseName<'a> for Name<'a> {
    ghost labels = { λ v. name_labels v.slice.now };

    ghost names = { λ v bytes rest e. plain_name_names (name_labels v.slice.now) bytes rest e };

    ghost names_at = { λ v contents at end e. placed_names (name_labels v.slice.now) contents at end e };

    fn label_count(&self) -> usize
        ensures count { result ≡ length (name_labels self.now.slice.now) }
        ensures few { result ≤ 127 }
    {
        self.relative().count()
    }
}

impl<'a> ReadName<'a> for Name<'a> {
    ghost read = { λ v bytes rest e. e };

    ghost read_each = { λ bytes labels rest e. (labels, e) };

    ghost layout_matches = { λ v. refl };
}

impl<'a> ParseName<'a> for NameBuf {
    ghost labels = { λ v. v };

    ghost names = { plain_name_names };

    ghost names_at = { name_at_names };

    fn label_count(&self) -> usize {
        self.as_name().label_count()
    }
}

impl<'a> ReadName<'a> for NameBuf {
    ghost read = { λ v bytes rest e. e };

    ghost read_each = { λ bytes labels rest e. (labels, e) };

    ghost layout_matches = { λ v. refl };
}

impl<'a> ReadMessageName<'a> for NameBuf {
    ghost read_at = { λ v contents at end e. e };

    ghost read_each_at = { λ contents at labels end e. (labels, e) };
}

impl<'a> ParseName<'a> for RevNameBuf {
    ghost labels = { λ v. v };

    ghost names = { plain_name_names };

    ghost names_at = { name_at_names };

    fn label_count(&self) -> usize {
        self.as_revname().relative().count()
    }
}

impl<'a> ReadName<'a> for RevNameBuf {
    ghost read = { λ v bytes rest e. e };

    ghost read_each = { λ bytes labels rest e. (labels, e) };

    ghost layout_matches = { λ v. refl };
}

impl<'a> ReadMessageName<'a> for RevNameBuf {
    ghost read_at = { λ v contents at end e. e };

    ghost read_each_at = { λ contents at labels end e. (labels, e) };
}

/// The labels before its pointer, or all if it has none.
impl<'a> ParseName<'a> for UnparsedName<'a> {
    ghost labels = { λ v. (unparsed_of v.slice.now).0 };

    ghost names = { λ v bytes rest e. unparsed_names (unparsed_of v.slice.now) bytes rest e };

    ghost names_at = { λ v contents at end e. unparsed_names_at (unparsed_of v.slice.now) contents at end e };

    fn label_count(&self) -> usize
        ensures count { result ≡ length (unparsed_of self.now.slice.now).0 }
        ensures few { result ≤ 127 }
    {
        let mut rest = *self;
        let mut count = 0;
        while let Some((_label, next)) = rest.split_first() {
            rest = next;
            count += 1;
        }
        count
    }
}
