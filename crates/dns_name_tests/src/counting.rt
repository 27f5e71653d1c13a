//! Comparisons and readings that count their steps. No program sees the count: only clauses speak of it. So a test
//! goes over the name's label types and counts those. It is proved that a reading raises the count by that number.

ghost use Rattle.std.specs.Prelude.{◌≡◌, ◌+◌, ◌<◌, ℕ, List, IfSome};
ghost use Rattle.dns_wire.specs.Pointers.{NameAt, label_type_count};

use crate::assertion::holds;
use crate::canonical_order::PAIRS;
use crate::names::name;
use crate::pointers::{CHAIN, end_of_name};
use dns_name::{Name, NameBuf, Steps};
use dns_wire::{LabelType, NameCursor};
use std::cmp::Ordering;
use std::marker::Brand;
use std::sync::ledger::{Blank, Ledger};

/// The order of the names, whose steps are counted.
fn compared<L: Ledger>(one: &Name<'_>, other: &Name<'_>, blank: Blank) -> Ordering
    requires name { blank.name ≡ L.name }
    requires parts { blank.parts ≡ L.parts }
    requires some { 0 < blank.parts }
{
    let mut steps: Steps<L> = Steps::new(blank);
    one.cmp_counted(other, &mut steps)
}

/// The order of the names, by a count that begins here.
fn order(one: &[u8], other: &[u8]) -> Ordering {
    compared::<Brand>(&name(one), &name(other), Blank::new(1))
}

#[test]
fn a_counted_comparison_gives_the_same_order(rt: HostRuntime) {
    for (what, one, other, wanted) in PAIRS {
        assert!(rt; order(one, other) == *wanted, "{what}");
    }
}

/// How many label types a reading from the offset goes over: one for each label and each pointer, and one for the
/// root. `None` if no root is among the first 10,000.
fn label_types_read(contents: &[u8], offset: usize) -> Option<usize>
    ensures { IfSome result (λ n. (labels : List (List ℕ)) (end : ℕ) (found : NameAt contents.now offset labels end) → label_type_count found.reads ≡ n) }
{
    let mut cursor = NameCursor::new(offset);
    for count in 0..10_000 {
        if let LabelType::Root = cursor.next_label_type(contents).ok()? {
            return Some(count + 1);
        }
    }
    None
}

/// How many steps the reading of the name at the offset takes. The count rises by exactly that number.
fn steps_taken<L: Ledger>(contents: &[u8], offset: usize, steps: &mut Steps<L>) -> Option<usize>
    ensures { IfSome result (λ n. steps.new ≡ steps.old + n) }
{
    match NameBuf::split_counted(contents, offset, steps) {
        Ok(_) => label_types_read(contents, offset),
        Err(_) => None,
    }
}

/// The same, with a count that begins at 0.
fn steps_from_zero<L: Ledger>(contents: &[u8], offset: usize, blank: Blank) -> Option<usize>
    requires name { blank.name ≡ L.name }
    requires parts { blank.parts ≡ L.parts }
    requires some { 0 < blank.parts }
{
    let mut steps: Steps<L> = Steps::new(blank);
    steps_taken(contents, offset, &mut steps)
}

/// The same, with a count that begins here.
fn steps_counted(contents: &[u8], offset: usize) -> Option<usize> {
    steps_from_zero::<Brand>(contents, offset, Blank::new(1))
}

#[test]
fn a_counted_reading_goes_over_each_pointer(rt: HostRuntime) {
    holds(
        &rt,
        steps_counted(CHAIN, 18) == Some(5),
        "four pointers and the root",
    );
}

/// Where the pointer after the one to this offset leads: the first leads to the root, and each other to the one
/// before.
fn next_target(target: u16) -> u16 {
    if target == 23 {
        24
    } else {
        target.saturating_add(2)
    }
}

/// A record whose data are the root and then 8,000 pointers, each to the one before, and after it a pointer to the
/// last.
fn long_chain() -> [u8; 16_014] {
    let mut contents = [0u8; 16_014];
    let mut target = 23u16;
    for pointer in contents[12..].chunks_exact_mut(2) {
        pointer.copy_from_slice(&(target | 0xc000).to_be_bytes());
        target = next_target(target);
    }
    contents
}

#[test]
fn a_chain_of_8000_pointers_is_read_to_its_end(rt: HostRuntime) {
    let contents = long_chain();
    holds(
        &rt,
        &contents[16_012..] == b"\xfe\x96".as_slice(),
        "the last pointer",
    );
    holds(
        &rt,
        steps_counted(&contents, 16_012) == Some(8_002),
        "8,001 pointers and the root",
    );
    holds(
        &rt,
        end_of_name(&contents, 16_012, b"\0") == Some(16_014),
        "its end",
    );
}
