//! Where the pointers of a message lead in the end.

ghost use Rattle.std.specs.Prelude.{◌≡◌, ◌≤◌, ◌<◌, length, slice_index, IfOk, IfSome, IsFalse};
ghost use Rattle.dns_wire.specs.declared.sizes.TheConstants.{LAST_PLACE};
ghost use Rattle.dns_chain.specs.Chains.{AreFinal, AreFinalTargets, IsFinal, Leads};

use dns_wire::{LAST_PLACE, LabelType, POINTER_TAG, read_label_type};
use std::alloc::{AllocError, Global};
use std::marker::Model;

/// The final targets of the places of a message's contents: where a pointer to the place leads, through all pointers that follow
/// one another. They are found at once for all places when the first pointer to a pointer is met, and then take two octets for each octet
/// of the contents, 32,744 at most. It is seen as the contents.
#[derive(Drop)]
pub struct FinalTargets<'a> {
    contents: &'a [u8],
    targets: Option<Vec<u16>>,
}

impl<'a> Model for FinalTargets<'a> {
    ghost use Rattle.std.specs.Prelude.{IfSome};
    ghost use Rattle.dns_wire.specs.Octets.{Octets};
    ghost use Rattle.dns_chain.specs.Chains.{AreFinalTargets};

    ghost Value = { Octets };

    ghost view = { λ t. t.contents.now };

    ghost invariant = { λ t. IfSome t.targets (λ targets. AreFinalTargets t.contents.now targets.items) };
}

/// The final target of a place, after the places whose final targets these are.
fn final_target_after(contents: &[u8], targets: &[u16], place: u16) -> u16
    requires before { AreFinal contents.now targets.now }
    requires next { length targets.now ≡ place }
    ensures { IsFinal contents.now place result }
{
    let at = usize::from(place);
    match read_label_type(contents, at, at) {
        Ok(LabelType::Pointer(target)) => targets[target],
        Ok(LabelType::Root) => place,
        Ok(LabelType::Label(_)) => place,
        Err(_) => place,
    }
}

/// The final targets of the places of a message's contents to which a pointer can lead.
fn find_final_targets(alloc: Global, contents: &[u8]) -> Result<Vec<u16>, AllocError>
    ensures { IfOk result (λ targets. AreFinalTargets contents.now targets.items) }
{
    let count = contents.len().min(LAST_PLACE + 1);
    let mut targets = Vec::with_capacity(alloc, count)?;
    for place in 0..count as u16 {
        let target = final_target_after(contents, &targets, place);
        targets.push(target)?;
    }
    Ok(targets)
}

/// The final targets that were found before, or else those of the contents.
fn found_or_new(
    alloc: Global,
    contents: &[u8],
    found: Option<Vec<u16>>,
) -> Result<Vec<u16>, AllocError>
    requires { IfSome found (λ targets. AreFinalTargets contents.now targets.items) }
    ensures { IfOk result (λ targets. AreFinalTargets contents.now targets.items) }
{
    match found {
        Some(targets) => Ok(targets),
        None => find_final_targets(alloc, contents),
    }
}

/// Whether a pointer may be at the place: an octet from 192 up is there.
fn has_pointer(contents: &[u8], place: usize) -> bool
    ensures none { IsFalse result → IsFinal contents.now place place }
{
    if contents.len() <= place {
        return false;
    }
    contents[place] >= POINTER_TAG
}

/// The target at the place, or the place itself if it is after all of them.
fn target_at(targets: &[u16], place: usize) -> usize
    ensures found { place < length targets.now → result ≡ slice_index targets.now place }
    ensures after { length targets.now ≤ place → result ≡ place }
{
    match targets.get(place) {
        Some(target) => usize::from(*target),
        None => place,
    }
}

impl<'a> FinalTargets<'a> {
    /// The contents of a message, which are the octets after its header, before a pointer is met. It takes no memory.
    pub fn new(contents: &'a [u8]) -> FinalTargets<'a>
        ensures { result ≡ contents.entry.now }
    {
        FinalTargets {
            contents,
            targets: None,
        }
    }

    /// The contents.
    pub fn contents(&self) -> &'a [u8]
        ensures { result.now ≡ self.now }
    {
        self.contents
    }

    /// Where a pointer to the place leads in the end. To a place after the contents or after the last one there is no pointer. `AllocError`
    /// is out of memory for the final targets.
    pub(crate) fn final_target(&mut self, alloc: Global, place: usize) -> Result<usize, AllocError>
        ensures reached { IfOk result (Leads self.new place) }
        ensures last { IfOk result (λ target. place < length self.new → place ≤ LAST_PLACE → IsFinal self.new place target) }
        ensures unchanged { self.new ≡ self.old }
    {
        if !has_pointer(self.contents, place) {
            return Ok(place);
        }
        let targets = found_or_new(alloc, self.contents, self.targets.take())?;
        let target = target_at(&targets, place);
        self.targets = Some(targets);
        Ok(target)
    }
}
