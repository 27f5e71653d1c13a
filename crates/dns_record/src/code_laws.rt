//! The numbers of types and classes (IANA, Domain Name System (DNS) Parameters).

ghost use Rattle.std.specs.Prelude.{◌≡◌};

use crate::qclass::QClass;
use crate::qtype::QType;
use crate::rclass::RClass;
use crate::rtype::RType;

/// The types of records (IANA, Resource Record (RR) TYPEs).
pub fn record_type_numbers()
    ensures a { RType.A.code.value ≡ 1 }
    ensures ns { RType.NS.code.value ≡ 2 }
    ensures cname { RType.CNAME.code.value ≡ 5 }
    ensures soa { RType.SOA.code.value ≡ 6 }
    ensures ptr { RType.PTR.code.value ≡ 12 }
    ensures hinfo { RType.HINFO.code.value ≡ 13 }
    ensures mx { RType.MX.code.value ≡ 15 }
    ensures txt { RType.TXT.code.value ≡ 16 }
    ensures rp { RType.RP.code.value ≡ 17 }
    ensures aaaa { RType.AAAA.code.value ≡ 28 }
    ensures srv { RType.SRV.code.value ≡ 33 }
    ensures dname { RType.DNAME.code.value ≡ 39 }
    ensures opt { RType.OPT.code.value ≡ 41 }
    ensures ds { RType.DS.code.value ≡ 43 }
    ensures rrsig { RType.RRSIG.code.value ≡ 46 }
    ensures nsec { RType.NSEC.code.value ≡ 47 }
    ensures dnskey { RType.DNSKEY.code.value ≡ 48 }
    ensures nsec3 { RType.NSEC3.code.value ≡ 50 }
    ensures nsec3param { RType.NSEC3PARAM.code.value ≡ 51 }
    ensures cds { RType.CDS.code.value ≡ 59 }
    ensures cdnskey { RType.CDNSKEY.code.value ≡ 60 }
    ensures zonemd { RType.ZONEMD.code.value ≡ 63 }
    ensures tsig { RType.TSIG.code.value ≡ 250 }
{}

/// The types that a question may ask for: those of records, and a zone's changes, a whole zone, and every type (IANA, Resource
/// Record (RR) TYPEs).
pub fn question_type_numbers()
    ensures a { QType.A.code.value ≡ 1 }
    ensures ns { QType.NS.code.value ≡ 2 }
    ensures cname { QType.CNAME.code.value ≡ 5 }
    ensures soa { QType.SOA.code.value ≡ 6 }
    ensures ptr { QType.PTR.code.value ≡ 12 }
    ensures hinfo { QType.HINFO.code.value ≡ 13 }
    ensures mx { QType.MX.code.value ≡ 15 }
    ensures txt { QType.TXT.code.value ≡ 16 }
    ensures rp { QType.RP.code.value ≡ 17 }
    ensures aaaa { QType.AAAA.code.value ≡ 28 }
    ensures srv { QType.SRV.code.value ≡ 33 }
    ensures dname { QType.DNAME.code.value ≡ 39 }
    ensures opt { QType.OPT.code.value ≡ 41 }
    ensures ds { QType.DS.code.value ≡ 43 }
    ensures rrsig { QType.RRSIG.code.value ≡ 46 }
    ensures nsec { QType.NSEC.code.value ≡ 47 }
    ensures dnskey { QType.DNSKEY.code.value ≡ 48 }
    ensures nsec3 { QType.NSEC3.code.value ≡ 50 }
    ensures nsec3param { QType.NSEC3PARAM.code.value ≡ 51 }
    ensures cds { QType.CDS.code.value ≡ 59 }
    ensures cdnskey { QType.CDNSKEY.code.value ≡ 60 }
    ensures zonemd { QType.ZONEMD.code.value ≡ 63 }
    ensures tsig { QType.TSIG.code.value ≡ 250 }
    ensures ixfr { QType.IXFR.code.value ≡ 251 }
    ensures axfr { QType.AXFR.code.value ≡ 252 }
    ensures any { QType.ANY.code.value ≡ 255 }
{}

/// The classes of records and of questions: the internet and CHAOS (IANA, DNS CLASSes).
pub fn class_numbers()
    ensures internet { RClass.IN.code.value ≡ 1 }
    ensures chaos { RClass.CH.code.value ≡ 3 }
    ensures internet_question { QClass.IN.code.value ≡ 1 }
    ensures chaos_question { QClass.CH.code.value ≡ 3 }
{}
