//! Keys of owners, as octets that are in the order of the owners (RFC 4034 section 6.1).

ghost use Rattle.std.specs.Prelude.{◌≡◌, ◌≢◌, ◌<◌, ◌≤◌, ◌+◌, ◌∷◌, ℕ, Some, length, map, slice_index, take};
ghost use Rattle.std.specs.Char.{to_ascii_lowercase};
ghost use Rattle.std.specs.Str.{str_to_ascii_lowercase};
ghost use Rattle.dns_wire.specs.Names.{name_labels, plain_name, wire};
ghost use Rattle.dns_wire.specs.Octets.{Labels};
ghost use Rattle.dns_wire.specs.Reading.{all_of};
ghost use Rattle.dns_message.specs.OwnerKeys.{IsKeyOf, key_octet, label_key, lowercase_octet, owner_key};

use dns_name::{Name, NameBuf};
use dns_wire::ParseBytes;

/// The octet of a key for an octet in lowercase: those below `A` are one higher, so that none is 0.
fn lowercase_key_octet(octet: u8) -> u8
    requires { to_ascii_lowercase octet ≡ octet }
    ensures { result ≡ key_octet octet }
{
    if octet < b'A' { octet + 1 } else { octet }
}

/// Writes the key of a label in lowercase: its beginning, and the octets of a key.
fn put_label_key(label: &[u8], key: &mut [u8])
    requires lowercase { str_to_ascii_lowercase label.now ≡ label.now }
    requires room { length key.old ≡ 1 + length label.now }
    ensures { key.new ≡ label_key label.now }
{
    key[0] = 0;
    for at in 0..label.len() {
        key[at + 1] = lowercase_key_octet(label[at]);
    }
}

/// Writes the key of an owner, whose octets in lowercase these are, to the beginning of a buffer: its labels from the last to the first.
pub(crate) fn put_owner_key(owner: &[u8], key: &mut [u8])
    requires name { all_of (plain_name owner.now) ≡ Some (name_labels owner.now) }
    requires lowercase { str_to_ascii_lowercase owner.now ≡ owner.now }
    requires room { length owner.now ≤ length key.old }
    ensures key { take (length owner.now) key.new ≡ owner_key (name_labels owner.now) }
    ensures long { length key.new ≡ length key.old }
{
    let mut at = 0;
    let mut end = owner.len();
    while owner[at] != 0 {
        let next = at + 1 + usize::from(owner[at]);
        let begin = end - (next - at);
        put_label_key(&owner[at + 1..next], &mut key[begin..end]);
        at = next;
        end = begin;
    }
    key[0] = 0;
}

/// The octet in lowercase that an octet of a key is for: those up to `A` are one lower.
fn octet_of_key(octet: u8) -> u8
    ensures { result ≡ lowercase_octet octet }
{
    if octet > b'A' {
        octet
    } else {
        octet.saturating_sub(1)
    }
}

/// Where the label ends whose octets of a key begin there: at the beginning of the next, or with the key.
fn label_end(key: &[u8], begin: usize) -> usize
    requires { begin ≤ length key.now }
    ensures after { begin ≤ result }
    ensures within { result ≤ length key.now }
    ensures octets { (k : ℕ) → begin ≤ k → k < result → slice_index key.now k ≢ 0 }
    ensures ended { result < length key.now → slice_index key.now result ≡ 0 }
{
    for at in begin..key.len() {
        if key[at] == 0 {
            return at;
        }
    }
    key.len()
}

/// Writes the label that octets of a key are for: its length, and its octets in lowercase.
fn put_label_of_key(key: &[u8], label: &mut [u8])
    requires short { length key.now < 256 }
    requires room { length label.old ≡ 1 + length key.now }
    ensures { label.new ≡ length key.now ∷ map lowercase_octet key.now }
{
    label[0] = key.len() as u8;
    for at in 0..key.len() {
        label[at + 1] = octet_of_key(key[at]);
    }
}

/// Writes the octets of the owner whose key these are: its labels from the last to the first.
fn put_owner_of_key(key: &[u8], owner: &mut [u8])
    requires some { 0 < length key.now }
    requires short { length key.now < 256 }
    requires room { length owner.old ≡ length key.now }
    ensures { (labels : Labels) → IsKeyOf key.now labels → owner.new ≡ wire labels }
{
    let size = key.len();
    owner[size - 1] = 0;
    let mut at = 1;
    while at < size {
        let next = label_end(key, at + 1);
        put_label_of_key(&key[at + 1..next], &mut owner[size - next..size - at]);
        at = next;
    }
}

/// The owner in lowercase whose key these octets are (RFC 4034 section 6.1). Octets that are no owner's key give some name or none.
pub fn owner_of_key(key: &[u8]) -> Option<NameBuf>
    ensures { (owner : Labels) → IsKeyOf key.now owner → result ≡ Some owner }
{
    let size = key.len();
    if size == 0 || size > Name::MAX_SIZE {
        return None;
    }
    let mut octets = [0; Name::MAX_SIZE];
    put_owner_of_key(key, &mut octets[..size]);
    NameBuf::parse_bytes(&octets[..size]).ok()
}
