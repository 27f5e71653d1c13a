//! EDNS records.

ghost use Rattle.std.specs.Prelude.{◌≡◌, ◌↔◌, ◌≤◌, ◌<◌, ◌^◌, length, IfOk, IsTrue};
ghost use Rattle.std.specs.Fn.{FnOnceTakesAt, FnOnceReturnsAt};
ghost use Rattle.dns_wire.specs.Layout.{octets_writes};
ghost use Rattle.dns_wire.specs.Reading.{Gives};
ghost use Rattle.dns_rdata.specs.Edns.{EdnsOf, edns_seen, after_fixed_header, edns_after_rcode, edns_at, edns_octets, SamePrefix, TakesTwo, AnswersTwo};
ghost use Rattle.dns_rdata.specs.EdnsRecordLemmas.{edns_leaves};

use dns_edns::EdnsFlags;
use dns_num::{SizePrefixed, U16};
use dns_wire::{
    BuildBytes, BuildInMessage, NameCompressor, ParseBytes, ParseError, ReadPlainValue, SplitBytes,
    TruncationError, build_whole,
};

/// The root, and the number of OPT: with these octets each EDNS record begins (RFC 6891 section 6.1.2).
const FIXED_HEADER: [u8; 3] = [0, 0, 41];

/// What a message says of its sender, and of the message as a whole: an OPT record, whose owner is the root, and which has
/// its own fields where others have a class and a time to live (RFC 6891 section 6.1.2).
#[derive(Clone, Debug, PartialEq, Eq, Drop)]
pub struct EdnsRecord<D> {
    /// How many octets of a UDP payload the sender takes.
    pub max_udp_payload: U16,
    /// The upper eight bits of the response code (RFC 6891 section 6.1.3).
    pub ext_rcode: u8,
    /// The version of EDNS.
    pub version: u8,
    /// The flags.
    pub flags: EdnsFlags,
    /// The data, at most 65,535 octets: options, as a rule.
    pub content: SizePrefixed<U16, D>,
}

impl<D> EdnsRecord<D> {
    /// The record with what the function makes of its data.
    pub fn transform<ND, F: FnOnce(D) -> ND>(self, data_map: F) -> EdnsRecord<ND>
        requires { F.pre data_map self.content }
        ensures content { F.post data_map self.content result.content }
        ensures unchanged { (result.max_udp_payload ≡ self.max_udp_payload) × (result.ext_rcode ≡ self.ext_rcode) × (result.version ≡ self.version) × (result.flags ≡ self.flags) }
    {
        EdnsRecord {
            max_udp_payload: self.max_udp_payload,
            ext_rcode: self.ext_rcode,
            version: self.version,
            flags: self.flags,
            content: SizePrefixed::new(data_map(self.content.into_data())),
        }
    }

    /// The record with what the function makes of a reference to its data.
    pub fn transform_ref<'a, ND, F: FnOnce(&'a D) -> ND>(&'a self, data_map: F) -> EdnsRecord<ND>
        requires { FnOnceTakesAt F.FnOnce data_map self.now.content }
        ensures content { FnOnceReturnsAt F.FnOnce data_map self.now.content result.content }
        ensures unchanged { (result.max_udp_payload ≡ self.now.max_udp_payload) × (result.ext_rcode ≡ self.now.ext_rcode) × (result.version ≡ self.now.version) × (result.flags ≡ self.now.flags) }
    {
        EdnsRecord {
            max_udp_payload: self.max_udp_payload,
            ext_rcode: self.ext_rcode,
            version: self.version,
            flags: self.flags,
            content: SizePrefixed::new(data_map(self.content.inner())),
        }
    }
}

/// `ParseError` comes exactly if the octets don't begin with the root and the number of OPT, or the fields or the data
/// after them are not read.
impl<'a, D: ParseBytes<'a>> ReadPlainValue<'a> for EdnsRecord<D> {
    ghost Seen = { EdnsOf D.Seen };

    ghost seen = { edns_seen D.seen };

    ghost reads = { edns_at D.reads };

    ghost leaves_rest = { edns_leaves D.reads };

    #[tactic(auto, unfolding(crate::specs::Edns::edns_at))]
    fn read_plain(bytes: &'a [u8]) -> Result<(EdnsRecord<D>, &'a [u8]), ParseError> {
        let rest = split_fixed_header(bytes)?;
        let (max_udp_payload, rest) = U16::split_bytes(rest)?;
        let (ext_rcode, rest) = u8::split_bytes(rest)?;
        read_after_rcode(max_udp_payload, ext_rcode, rest)
    }
}

/// Reads what comes after the part of the response code. `ParseError` comes exactly if it is not there.
#[tactic(auto, unfolding(crate::specs::Edns::edns_after_rcode))]
fn read_after_rcode<'a, D: ParseBytes<'a>>(
    max_udp_payload: U16,
    ext_rcode: u8,
    bytes: &'a [u8],
) -> Result<(EdnsRecord<D>, &'a [u8]), ParseError>
    ensures exact { Gives (λ x. (edns_seen D.seen x.0, x.1.now)) result (edns_after_rcode D.reads max_udp_payload.value ext_rcode bytes.now) }
    ensures within { IfOk result (λ x. length x.1.now ≤ length bytes.now) }
{
    let (version, rest) = u8::split_bytes(bytes)?;
    let (flags, rest) = EdnsFlags::split_bytes(rest)?;
    let (content, rest) = match SizePrefixed::split_bytes(rest) {
        Ok(parts) => parts,
        Err(error) => return Err(error),
    };
    let value = EdnsRecord {
        max_udp_payload,
        ext_rcode,
        version,
        flags,
        content,
    };
    Ok((value, rest))
}

/// The octets after the root and the type of an EDNS record. `ParseError` comes exactly if they don't begin with these.
fn split_fixed_header(bytes: &[u8]) -> Result<&[u8], ParseError>
    ensures exact { Gives (λ rest. rest.now) result (after_fixed_header bytes.now) }
    ensures within { IfOk result (λ rest. length rest.now ≤ length bytes.now) }
{
    if bytes.len() < FIXED_HEADER.len() {
        return Err(ParseError);
    }
    let (first, rest) = bytes.split_at(FIXED_HEADER.len());
    if first == FIXED_HEADER.as_slice() {
        Ok(rest)
    } else {
        Err(ParseError)
    }
}

impl<D: BuildBytes> BuildBytes for EdnsRecord<D> {
    ghost octets = { λ v. edns_octets v (D.octets v.content) };

    ghost fits = { λ v. (length (D.octets v.content) < 2 ^ 16) × D.fits v.content };

    fn build_at(&self, bytes: &mut [u8], start: usize) -> Result<usize, TruncationError> {
        let trailing = (&self.version, (&self.flags, &self.content));
        (
            FIXED_HEADER,
            (&self.max_udp_payload, (&self.ext_rcode, trailing)),
        )
            .build_at(bytes, start)
    }

    fn built_bytes_size(&self) -> usize {
        9 + self.content.built_bytes_size()
    }
}

/// Whole, with no name in it that is pointed to.
impl<D: BuildBytes> BuildInMessage for EdnsRecord<D> {
    ghost writes = { λ v. octets_writes (edns_octets v (D.octets v.content)) };

    ghost fits_in = { λ v _ _. (length (D.octets v.content) < 2 ^ 16) × D.fits v.content };

    ghost layout_matches = { λ _. tt };

    fn build_in_message(
        &self,
        contents: &mut [u8],
        start: usize,
        compressor: &mut NameCompressor,
    ) -> Result<usize, TruncationError> {
        build_whole(self, contents, start, compressor)
    }
}

impl<D> EdnsRecord<D> {
    /// Whether the fields of both before their data are the same.
    fn same_prefix<E>(&self, that: &EdnsRecord<E>) -> bool
        ensures { IsTrue result ↔ SamePrefix self.now that.now }
    {
        self.max_udp_payload == that.max_udp_payload
            && self.ext_rcode == that.ext_rcode
            && self.version == that.version
            && self.flags == that.flags
    }

    /// Whether the fields of both are the same, and the function answers so of their data.
    pub fn eq_record<E, F: Fn(&D, &E) -> bool>(&self, that: &EdnsRecord<E>, same: F) -> bool
        requires { TakesTwo F.Fn same self.now.content that.now.content }
        ensures fields { IsTrue result → SamePrefix self.now that.now }
        ensures content { SamePrefix self.now that.now → AnswersTwo F.Fn same self.now.content that.now.content result }
    {
        self.same_prefix(that) && same(self.content.inner(), that.content.inner())
    }
}
