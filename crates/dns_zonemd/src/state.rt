//! The zone of an apex, from its records in canonical order.

ghost use Rattle.std.specs.Prelude.{◌≡◌, ◌≢◌, ◌<◌, ◌-◌, ◌^◌, [], ◌∷◌, ◌++◌, List, IfErr, IfOk, MatchOption, OnOk, length};
ghost use Rattle.dns_message.specs.Order.{SortKey};
ghost use Rattle.dns_record_lines.specs.RecordLines.{IsLineOf};
ghost use Rattle.dns_zonemd.specs.SortedZone.{sorted_members, sorted_soas};
ghost use Rattle.dns_zonemd.specs.Verdicts.{report};
ghost use Rattle.dns_zonemd.specs.States.{Holds, HoldsMembers, HoldsSoa, HoldsZonemds, RefusesLine, RefusesRecord, comes_before, zone_apex};

use crate::members::{SortedMembers, is_alike_first, replace};
use crate::refusal::LineRefusal;
use crate::report::report_text;
use dns_message::{CanonicalForm, CanonicalForms};
use dns_name::RevNameBuf;
use dns_record_lines::RecordLineReader;
use dns_zone::{belongs, is_soa_of, is_zonemd_of};
use std::alloc::{AllocError, Global};

/// What is kept of the records of a zone that were read from their lines, whatever their number: the last record and the last member, the SOA record,
/// the ZONEMD records, and sums over the members.
///
/// ```
/// let mut reader = RecordLineReader::new(rt.alloc());
/// let mut zone = SortedZone::new(rt.alloc(), apex);
/// for line in lines {
///     zone.add_line(&mut reader, line)?;
/// }
/// let text = zone.into_report(rt.alloc())?;
/// ```
#[derive(Drop)]
pub struct SortedZone {
    pub(crate) apex: RevNameBuf,
    pub(crate) lines: u64,
    pub(crate) previous: CanonicalForms,
    pub(crate) members: SortedMembers,
    pub(crate) soa: CanonicalForms,
    pub(crate) zonemds: CanonicalForms,
    pub(crate) zonemd: CanonicalForms,
}

/// Whether a record comes before the first of these.
fn comes_before(previous: &CanonicalForms, form: &CanonicalForm<'_>) -> bool
    ensures { result ≡ comes_before previous.now form.now }
{
    match previous.first() {
        Some(first) => first.cmp(form).is_gt(),
        None => false,
    }
}

/// Keeps the SOA record of the apex; a second one is refused.
fn keep_soa(
    soa: &mut CanonicalForms,
    form: &CanonicalForm<'_>,
    apex: &RevNameBuf,
) -> Result<(), LineRefusal>
    ensures kept { OnOk result ((ks : List SortKey) → HoldsSoa apex.now ks soa.old → HoldsSoa apex.now (ks ++ form.now ∷ []) soa.new) }
    ensures refused { IfErr result (λ why. (ks : List SortKey) → HoldsSoa apex.now ks soa.old → RefusesRecord apex.now ks form.now why) }
{
    if !is_soa_of(form, apex) {
        return Ok(());
    }
    if is_alike_first(soa, form) {
        return Ok(());
    }
    if !soa.is_empty() {
        return Err(LineRefusal::SecondSoa);
    }
    soa.push(form)?;
    Ok(())
}

/// Keeps the ZONEMD records of the apex. `AllocError` is out of memory.
fn keep_zonemd(
    zonemds: &mut CanonicalForms,
    last: &mut CanonicalForms,
    form: &CanonicalForm<'_>,
    apex: &RevNameBuf,
) -> Result<(), AllocError>
    ensures { OnOk result ((ks : List SortKey) → HoldsZonemds apex.now ks zonemds.old last.old → HoldsZonemds apex.now (ks ++ form.now ∷ []) zonemds.new last.new) }
{
    if !is_zonemd_of(form, apex) {
        return Ok(());
    }
    if is_alike_first(last, form) {
        return Ok(());
    }
    zonemds.push(form)?;
    replace(last, form)
}

/// Adds a record to the members of the zone of the apex, if it is one. `AllocError` is out of memory.
fn add_member(
    members: &mut SortedMembers,
    form: &CanonicalForm<'_>,
    apex: &RevNameBuf,
) -> Result<(), AllocError>
    ensures { OnOk result ((ks : List SortKey) → length ks < 2 ^ 64 - 1 → HoldsMembers (sorted_members apex.now ks) members.old → HoldsMembers (sorted_members apex.now (ks ++ form.now ∷ [])) members.new) }
{
    if belongs(form, apex) {
        members.add(form)
    } else {
        Ok(())
    }
}

impl SortedZone {
    /// No record was read.
    pub fn new(alloc: Global, apex: RevNameBuf) -> SortedZone
        ensures holds { Holds [] result }
        ensures apex { zone_apex result ≡ apex }
    {
        SortedZone {
            apex,
            lines: 0,
            previous: CanonicalForms::new(alloc),
            members: SortedMembers::new(alloc),
            soa: CanonicalForms::new(alloc),
            zonemds: CanonicalForms::new(alloc),
            zonemd: CanonicalForms::new(alloc),
        }
    }

    /// Adds the next record.
    fn add_record(&mut self, form: &CanonicalForm<'_>) -> Result<(), LineRefusal>
        requires { self.old.lines < 2 ^ 64 - 1 }
        ensures added { OnOk result ((ks : List SortKey) → Holds ks self.old → Holds (ks ++ form.now ∷ []) self.new) }
        ensures refused { IfErr result (λ why. (ks : List SortKey) → Holds ks self.old → RefusesRecord (zone_apex self.old) ks form.now why) }
        ensures apex { zone_apex self.new ≡ zone_apex self.old }
    {
        if comes_before(&self.previous, form) {
            return Err(LineRefusal::NotSorted);
        }
        keep_soa(&mut self.soa, form, &self.apex)?;
        keep_zonemd(&mut self.zonemds, &mut self.zonemd, form, &self.apex)?;
        add_member(&mut self.members, form, &self.apex)?;
        replace(&mut self.previous, form)?;
        self.lines += 1;
        Ok(())
    }

    /// Reads the line of the next record, which has no LF. A line that is refused ends the reading: what is kept then is unspecified.
    pub fn add_line(
        &mut self,
        reader: &mut RecordLineReader,
        line: &[u8],
    ) -> Result<(), LineRefusal>
        ensures added { OnOk result ((ks : List SortKey) → Holds ks self.old → (k : SortKey) × IsLineOf line.now k × Holds (ks ++ k ∷ []) self.new) }
        ensures refused { IfErr result (λ why. (ks : List SortKey) → Holds ks self.old → RefusesLine (zone_apex self.old) ks line.now why) }
        ensures apex { zone_apex self.new ≡ zone_apex self.old }
    {
        if line.starts_with(b"!") {
            return Err(LineRefusal::Marked);
        }
        if self.lines == u64::MAX {
            return Err(LineRefusal::TooManyLines);
        }
        let Some(form) = reader.read(line)? else {
            return Err(LineRefusal::NoRecord);
        };
        self.add_record(&form)
    }

    /// What is printed for the records that were read: the sums over the zone's members, and for each ZONEMD record of the apex whether it is
    /// verified (RFC 8976 section 4). `None` comes exactly if no SOA record of the apex was read. `AllocError` is out of memory.
    pub fn into_report(self, alloc: Global) -> Result<Option<Vec<u8>>, AllocError>
        ensures { IfOk result (λ found. (ks : List SortKey) → Holds ks self → MatchOption found (sorted_soas (zone_apex self) ks ≡ []) (λ text. (sorted_soas (zone_apex self) ks ≢ []) × (text.items ≡ report (zone_apex self) ks))) }
    {
        let SortedZone {
            members,
            soa,
            zonemds,
            ..
        } = self;
        let sums = members.into_sums();
        if soa.is_empty() {
            return Ok(None);
        }
        let soas = soa.views(alloc)?;
        let found = zonemds.views(alloc)?;
        let text = report_text(alloc, &sums, &soas, &found)?;
        Ok(Some(text))
    }
}
