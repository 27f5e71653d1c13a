//! EDNS records in the form of records.

ghost use Rattle.std.specs.Prelude.{◌≡◌, ◌<◌, ◌^◌, [], Some};
ghost use Rattle.dns_edns.specs.Flags.{flag_bits};
ghost use Rattle.dns_edns.specs.declared.opt.Opt.{Opt as OptData};
ghost use Rattle.dns_record.specs.declared.record.Record.{Record};
ghost use Rattle.dns_rdata.specs.Edns.{edns_seen};
ghost use Rattle.dns_rdata.specs.EdnsForms.{IsFormOf, edns_in};
ghost use Rattle.dns_rdata.specs.declared.edns_record.EdnsRecord.{EdnsRecord};
ghost use Rattle.dns_rdata.specs.declared.record_data.RecordData.{RecordData};
ghost use Rattle.dns_wire.specs.Octets.{Labels};

/// The record that an EDNS record is made into is that EDNS record again: nothing is lost on the way there and back (RFC 6891
/// sections 6.1.2 and 6.1.3).
pub fn edns_records_come_back<N>()
    ensures { (edns : EdnsRecord OptData) (form : Record Labels (RecordData N)) →
        edns.ext_rcode < 2 ^ 8 → edns.version < 2 ^ 8 → flag_bits edns.flags < 2 ^ 16 →
        IsFormOf [] edns form → edns_in form ≡ Some (edns_seen (λ options. options.slice.now) edns) }
{}
