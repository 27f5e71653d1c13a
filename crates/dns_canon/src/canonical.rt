//! The canonical list of a message.

ghost use Rattle.std.specs.Prelude.{◌≡◌, ◌≤◌, ◌⊎◌, ◌↔◌, List, map, length, IfOk, IfErr, OnErr, IsNone, IsTrue, slice_get};
ghost use Rattle.std.specs.Option.{option_copied};
ghost use Rattle.dns_message.specs.Refusals.{RefusedAs, RefusedOrMemory};
ghost use Rattle.dns_message.specs.Messages.{RecordValue, Valid};
ghost use Rattle.dns_message.specs.Order.{canonical_list, octets_of_key};
ghost use Rattle.dns_wire.specs.Octets.{Octets};

use dns_message::{CanonError, CanonicalForm, read_forms};
use std::alloc::{AllocError, Global};
use std::marker::Model;

/// The canonical octets of each record of a message other than OPT, in order. Records that are alike occur once, with the least TTL.
#[derive(Drop)]
pub struct CanonList {
    lists: Vec<Vec<u8>>,
}

impl Model for CanonList {
    ghost Value = { List Octets };

    ghost view = { λ l. map (λ list. list.items) l.lists.items };
}

/// The same octets in the same order.
impl PartialEq for CanonList {
    ghost use Rattle.std.specs.Cmp.Lexicographic.{pointwise};
    ghost use Rattle.std.specs.Cmp.Rules.{comparing};
    ghost use Rattle.std.specs.Prelude.{nat_eq};
    ghost use Rattle.std.proofs.Common.{rules};

    ghost eq = { pointwise (pointwise nat_eq) };

    ghost laws = { Prim.search (comparing, rules) depth 9 };

    fn eq(&self, other: &Self) -> bool {
        self.lists == other.lists
    }
}

impl Eq for CanonList {
    ghost use Rattle.std.specs.Cmp.Rules.{comparing};
    ghost use Rattle.std.proofs.Common.{rules};

    ghost laws = { Prim.search (comparing, rules) depth 9 };
}

impl CanonList {
    /// The number of records.
    pub fn len(&self) -> usize
        ensures { result ≡ length self.now }
    {
        self.lists.len()
    }

    /// Whether there are no records.
    pub fn is_empty(&self) -> bool
        ensures { IsTrue result ↔ (length self.now ≡ 0) }
    {
        self.lists.is_empty()
    }

    /// The canonical octets of a record, by its place from 0; none from the length on.
    pub fn get(&self, index: usize) -> Option<&[u8]>
        ensures value { option_copied result ≡ slice_get self.now index }
        ensures past { IsNone result ↔ (length self.now ≤ index) }
    {
        match self.lists.get(index) {
            Some(list) => Some(list.as_slice()),
            None => None,
        }
    }
}

/// The canonical octets of the forms, in their order.
fn all_octets(alloc: Global, forms: &[CanonicalForm<'_>]) -> Result<Vec<Vec<u8>>, AllocError>
    ensures { IfOk result (λ lists. map (λ list. list.items) lists.items ≡ map octets_of_key forms.now) }
{
    let mut lists = Vec::with_capacity(alloc, forms.len())?;
    for form in forms {
        lists.push(Vec::from_slice(alloc, form.octets())?)?;
    }
    Ok(lists)
}

/// The canonical list of a message (RFC 4034 section 6): the canonical octets of each record other than OPT, in order. Records
/// that are alike in owner, class, type and data occur once, with the least TTL (RFC 2181 section 5.2). `Short` and `Item`
/// come exactly if the message calls for them; `Memory` may come in place of any other answer.
///
/// ```
/// let list = canonicalise(rt.alloc(), &message)?;
/// for index in 0..list.len() {
///     println!(rt; "{}", hex::encode(rt.alloc(), list.get(index).unwrap_or(b""))?)?;
/// }
/// ```
pub fn canonicalise(alloc: Global, message: &[u8]) -> Result<CanonList, CanonError>
    ensures ok { IfOk result (λ list. (rs : List RecordValue) × Valid message.now rs × (list ≡ canonical_list rs)) }
    ensures refused { IfErr result (RefusedOrMemory message.now) }

    // Except for memory, the answer is the one that the message calls for.
    ensures valid { (rs : List RecordValue) → Valid message.now rs → OnErr result (result ≡ Err CanonError.Memory) }
    ensures exactly { (error : CanonError) → RefusedAs message.now error
        → (result ≡ Err error) ⊎ (result ≡ Err CanonError.Memory) }
{
    let forms = read_forms(alloc, message)?;
    let order = forms.collapsed(alloc)?;
    let lists = all_octets(alloc, order.forms())?;
    Ok(CanonList { lists })
}
