//! An owner as its canonical octets and its key.

ghost use Rattle.std.specs.Prelude.{◌≡◌, ◌≤◌, length};
ghost use Rattle.dns_wire.specs.Names.{IsName, lowered, wire};
ghost use Rattle.dns_message.specs.Owners.{IsCanonicalOwner};
ghost use Rattle.dns_message.specs.OwnerKeys.{owner_key};
ghost use Rattle.dns_wire.specs.Names.{name_labels};

use std::marker::Model;

/// The canonical octets of an owner and its key. It borrows both, and is seen as the labels in lowercase.
#[derive(Debug, Drop)]
pub(crate) struct CanonicalOwner<'o> {
    octets: &'o [u8],
    key: &'o [u8],
}

impl<'o> Model for CanonicalOwner<'o> {
    ghost use Rattle.dns_wire.specs.Octets.{Labels};
    ghost use Rattle.dns_wire.specs.Names.{name_labels};
    ghost use Rattle.dns_message.specs.Owners.{IsCanonicalOwner};

    ghost Value = { Labels };

    ghost view = { λ o. name_labels o.octets.now };

    ghost invariant = { λ o. IsCanonicalOwner (name_labels o.octets.now) o.octets.now o.key.now };
}

impl<'o> CanonicalOwner<'o> {
    /// The owner that has these canonical octets and this key.
    pub(crate) fn new(octets: &'o [u8], key: &'o [u8]) -> CanonicalOwner<'o>
        requires { IsCanonicalOwner (name_labels octets.now) octets.now key.now }
        ensures { result ≡ name_labels octets.entry.now }
    {
        CanonicalOwner { octets, key }
    }

    /// The canonical octets, at most 255.
    pub(crate) fn octets(&self) -> &'o [u8]
        ensures octets { result.now ≡ wire self.now }
        ensures name { IsName self.now }
        ensures lowercase { lowered self.now ≡ self.now }
        ensures short { length result.now ≤ 255 }
    {
        self.octets
    }

    /// The key.
    pub(crate) fn key(&self) -> &'o [u8]
        ensures { result.now ≡ owner_key self.now }
    {
        self.key
    }
}
