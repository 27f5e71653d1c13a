//! Records.

ghost use Rattle.dns_record.specs.DataLemmas.{record_leaves, record_ends};
ghost use Rattle.std.specs.Prelude.{◌≡◌, ◌≤◌, ◌<◌, ◌^◌, [], length, IfOk};
ghost use Rattle.std.specs.Fn.{FnOnceTakesAt, FnOnceReturnsAt};
ghost use Rattle.dns_wire.specs.Reading.{Gives};
ghost use Rattle.dns_record.specs.InMessage.{fixed_header, record_writes, record_fits};
ghost use Rattle.dns_record.specs.Records.{RecordOf, record_at, record_in, octets_of_parts, SizedData, SizedDataIn};
ghost use Rattle.dns_record.specs.Seen.{record_seen};

use crate::rclass::RClass;
use crate::record_data::{ParseRecordData, ParseRecordDataBytes};
use crate::rtype::RType;
use crate::ttl::TTL;
use crate::unparsed_parts::UnparsedParts;
use dns_num::{SizePrefixed, U16};
use dns_wire::{
    BuildBytes, BuildInMessage, NameCompressor, ParseBytes, ParseError, ParseMessageBytes,
    SplitBytes, SplitMessageBytes, TruncationError, whole, whole_message,
};

/// A record: an owner, a type, a class, a time to live, and data (RFC 1035 section 4.1.3).
///
/// ```
/// let owner = NameBuf::from_str("www.example.org.")?;
/// let address = A::from_str("192.0.2.80")?;
/// let record = Record::new(&owner, RType::A, RClass::IN, TTL::from(300), address);
/// ```
#[derive(Clone, Debug, PartialEq, Eq, Hash, Drop)]
pub struct Record<N, D> {
    /// The owner.
    pub rname: N,
    /// The type.
    pub rtype: RType,
    /// The class.
    pub rclass: RClass,
    /// The time to live.
    pub ttl: TTL,
    /// The data.
    pub rdata: D,
}

impl<N, D> Record<N, D> {
    /// The record of these parts.
    pub fn new(rname: N, rtype: RType, rclass: RClass, ttl: TTL, rdata: D) -> Record<N, D>
        ensures { result ≡ record { rname = rname; rtype = rtype; rclass = rclass; ttl = ttl; rdata = rdata } }
    {
        Record {
            rname,
            rtype,
            rclass,
            ttl,
            rdata,
        }
    }

    /// The record with what the functions make of its owner and of its data.
    pub fn transform<NN, ND, F: FnOnce(N) -> NN, G: FnOnce(D) -> ND>(
        self,
        name_map: F,
        data_map: G,
    ) -> Record<NN, ND>
        requires name { F.pre name_map self.rname }
        requires content { G.pre data_map self.rdata }
        ensures name { F.post name_map self.rname result.rname }
        ensures content { G.post data_map self.rdata result.rdata }
        ensures unchanged { (result.rtype ≡ self.rtype) × (result.rclass ≡ self.rclass) × (result.ttl ≡ self.ttl) }
    {
        Record {
            rname: name_map(self.rname),
            rtype: self.rtype,
            rclass: self.rclass,
            ttl: self.ttl,
            rdata: data_map(self.rdata),
        }
    }

    /// The record with what the functions make of references to its owner and to its data.
    pub fn transform_ref<'a, NN, ND, F: FnOnce(&'a N) -> NN, G: FnOnce(&'a D) -> ND>(
        &'a self,
        name_map: F,
        data_map: G,
    ) -> Record<NN, ND>
        requires name { FnOnceTakesAt F.FnOnce name_map self.now.rname }
        requires content { FnOnceTakesAt G.FnOnce data_map self.now.rdata }
        ensures name { FnOnceReturnsAt F.FnOnce name_map self.now.rname result.rname }
        ensures content { FnOnceReturnsAt G.FnOnce data_map self.now.rdata result.rdata }
        ensures unchanged { (result.rtype ≡ self.now.rtype) × (result.rclass ≡ self.now.rclass) × (result.ttl ≡ self.now.ttl) }
    {
        Record {
            rname: name_map(&self.rname),
            rtype: self.rtype,
            rclass: self.rclass,
            ttl: self.ttl,
            rdata: data_map(&self.rdata),
        }
    }
}

impl<'a, N: SplitBytes<'a>, D: ParseRecordDataBytes<'a>> ParseBytes<'a> for Record<N, D> {
    ghost Seen = { RecordOf N.Seen D.Seen };

    ghost seen = { record_seen N.seen D.seen };

    ghost reads = { record_at N.reads D.reads_as };

    ghost reads_at = { record_in N.reads_at D.reads_in };

    ghost leaves_rest = { record_leaves N.reads D.reads_as N.leaves_rest };

    ghost ends_within = { record_ends N.reads_at D.reads_in N.ends_within };

    fn parse_bytes(bytes: &'a [u8]) -> Result<Record<N, D>, ParseError> {
        whole(Record::split_bytes(bytes))
    }
}

impl<'a, N: SplitBytes<'a>, D: ParseRecordDataBytes<'a>> SplitBytes<'a> for Record<N, D> {
    /// Reads the record at the start, and gives the octets after it. `ParseError` comes exactly if none
    /// is there. The data are those that `D` reads from at most 65,535 octets.
    #[tactic(auto, unfolding(crate::specs::Records::record_at))]
    fn split_bytes(bytes: &'a [u8]) -> Result<(Record<N, D>, &'a [u8]), ParseError>
        ensures exact { Gives (λ x. (record_seen N.seen D.seen x.0, x.1.now)) result (record_at N.reads D.reads_as bytes.now) }
        ensures within { IfOk result (λ x. length x.1.now ≤ length bytes.now) }
        ensures sized { IfOk result (λ x. SizedData D.reads_as (D.seen x.0.rdata) x.0.rtype.code.value) }
        ensures typed { IfOk result (λ x. D.is_of x.0.rdata x.0.rtype.code.value) }
    {
        let (rname, rest) = N::split_bytes(bytes)?;
        let (parts, rest) = UnparsedParts::split_bytes(rest)?;
        let rdata = D::parse_record_data_bytes(parts.rdata, parts.rtype)?;
        let record = Record::new(rname, parts.rtype, parts.rclass, parts.ttl, rdata);
        Ok((record, rest))
    }
}

impl<'a, N: SplitMessageBytes<'a>, D: ParseRecordData<'a>> ParseMessageBytes<'a> for Record<N, D> {
    fn parse_message_bytes(contents: &'a [u8], start: usize) -> Result<Record<N, D>, ParseError> {
        whole_message(Record::split_message_bytes(contents, start), contents)
    }
}

impl<'a, N: SplitMessageBytes<'a>, D: ParseRecordData<'a>> SplitMessageBytes<'a> for Record<N, D> {
    /// Reads the record at the place, and gives the place where it ends. `ParseError` comes exactly if
    /// none is there. The data are those that `D` reads from at most 65,535 octets, of which the last is
    /// the record's last.
    #[tactic(auto, using(crate::proofs::PartsLemmas::parts_end_at), unfolding(crate::specs::Records::record_in))]
    fn split_message_bytes(
        contents: &'a [u8],
        start: usize,
    ) -> Result<(Record<N, D>, usize), ParseError>
        ensures exact { Gives (λ x. (record_seen N.seen D.seen x.0, x.1)) result (record_in N.reads_at D.reads_in contents.now start) }
        ensures within { IfOk result (λ x. (start ≤ x.1) × (x.1 ≤ length contents.now)) }
        ensures sized { IfOk result (λ x. SizedDataIn D.reads_in contents.now (D.seen x.0.rdata) x.0.rtype.code.value x.1) }
        ensures typed { IfOk result (λ x. D.is_of x.0.rdata x.0.rtype.code.value) }
    {
        let (rname, at) = N::split_message_bytes(contents, start)?;
        let (parts, end) = UnparsedParts::split_message_bytes(contents, at)?;
        let rdata_start = end - parts.rdata.len();
        let rdata = D::parse_record_data(&contents[..end], rdata_start, parts.rtype)?;
        let record = Record::new(rname, parts.rtype, parts.rclass, parts.ttl, rdata);
        Ok((record, end))
    }
}

/// The size and the data are written as data after their size are: the data are at most 65,535 octets.
impl<N: BuildBytes, D: BuildBytes> BuildBytes for Record<N, D> {
    ghost octets = { λ v. octets_of_parts (N.octets v.rname) v.rtype.code.value v.rclass.code.value v.ttl.value.value (D.octets v.rdata) };

    ghost fits = { λ v. N.fits v.rname × (length (D.octets v.rdata) < 2 ^ 16) × D.fits v.rdata };

    fn build_at(&self, bytes: &mut [u8], start: usize) -> Result<usize, TruncationError> {
        let data = SizePrefixed::<U16, _>::new(&self.rdata);
        let parts = (&self.rtype, (&self.rclass, (&self.ttl, data)));
        (&self.rname, parts).build_at(bytes, start)
    }

    fn built_bytes_size(&self) -> usize {
        self.rname.built_bytes_size() + (10 + self.rdata.built_bytes_size())
    }
}

/// The owner and the data as their types write them in a message. The data are at most 65,535 octets there.
impl<N: BuildInMessage, D: BuildInMessage> BuildInMessage for Record<N, D> {
    ghost writes = { λ v. record_writes (N.writes v.rname) (fixed_header v.rtype.code.value v.rclass.code.value v.ttl.value.value) (D.writes v.rdata) };

    ghost fits_in = { λ v. record_fits (N.fits_in v.rname) (N.writes v.rname) (fixed_header v.rtype.code.value v.rclass.code.value v.ttl.value.value) (D.fits_in v.rdata) (D.writes v.rdata) };

    ghost layout_matches = { λ _. tt };

    fn build_in_message(
        &self,
        contents: &mut [u8],
        start: usize,
        compressor: &mut NameCompressor,
    ) -> Result<usize, TruncationError> {
        let numbers = (&self.rtype, (&self.rclass, &self.ttl));
        let data = SizePrefixed::<U16, _>::new(&self.rdata);
        (&self.rname, (numbers, data)).build_in_message(contents, start, compressor)
    }
}
