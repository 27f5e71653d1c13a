//! Data after the number of their octets.

ghost use Rattle.std.specs.Prelude.{◌≡◌, ◌<◌, ◌^◌, length};
ghost use Rattle.std.specs.Int.{byte_len};
ghost use Rattle.dns_num.specs.PrefixedLemmas.{prefixed_leaves, prefixed_ends};
ghost use Rattle.dns_num.specs.Prefixed.{sized, prefixed, prefixed_at};

use crate::size_prefix::{SizePrefix, can_say, split_size, split_size_at};
use dns_wire::{
    BuildBytes, ParseBytes, ParseError, ParseMessageBytes, SplitBytes, SplitMessageBytes,
    TruncationError, whole_message,
};
use std::marker::{Model, PhantomData};

/// Data after the number of their octets. The number is not kept, but counted where the data are written.
#[derive(Clone, Copy, Debug, PartialEq, Eq, PartialOrd, Ord, Hash, Drop)]
pub struct SizePrefixed<S, T> {
    content: T,
    prefix: PhantomData<S>,
}

impl<S, T> Model for SizePrefixed<S, T> {
    ghost Value = { T };

    ghost view = { λ prefixed. prefixed.content };

    ghost inverse = { λ content. record { content = content; prefix = record {} } };
}

impl<S, T> SizePrefixed<S, T> {
    /// The data, to be written after the number of their octets.
    pub fn new(inner: T) -> Self
        ensures { result ≡ inner }
    {
        SizePrefixed {
            content: inner,
            prefix: PhantomData,
        }
    }

    /// The data.
    pub fn into_data(self) -> T
        ensures { result ≡ self }
    {
        self.content
    }

    /// The data, borrowed.
    pub fn inner(&self) -> &T
        ensures { result.now ≡ self.now }
    {
        &self.content
    }
}

/// The prefix, and then a value of exactly that many octets as it counts.
impl<'a, S: SizePrefix, T: ParseBytes<'a>> ParseBytes<'a> for SizePrefixed<S, T> {
    ghost Seen = { T.Seen };

    ghost seen = { λ v. T.seen v };

    ghost reads = { prefixed S.number_width T.reads };

    ghost reads_at = { prefixed_at S.number_width T.reads_at };

    ghost leaves_rest = { prefixed_leaves S.number_width T.reads };

    ghost ends_within = { prefixed_ends S.number_width T.reads_at };

    #[tactic(auto, unfolding(crate::specs::Prefixed::prefixed))]
    fn parse_bytes(bytes: &'a [u8]) -> Result<SizePrefixed<S, T>, ParseError> {
        let (size, content) = split_size::<S>(bytes)?;
        if content.len() != size {
            return Err(ParseError);
        }
        let inner = T::parse_bytes(content)?;
        Ok(SizePrefixed::new(inner))
    }
}

impl<'a, S: SizePrefix, T: ParseBytes<'a>> SplitBytes<'a> for SizePrefixed<S, T> {
    #[tactic(auto, unfolding(crate::specs::Prefixed::prefixed))]
    fn split_bytes(bytes: &'a [u8]) -> Result<(SizePrefixed<S, T>, &'a [u8]), ParseError> {
        let (size, rest) = split_size::<S>(bytes)?;
        if rest.len() < size {
            return Err(ParseError);
        }
        let (content, rest) = rest.split_at(size);
        let inner = T::parse_bytes(content)?;
        Ok((SizePrefixed::new(inner), rest))
    }
}

impl<'a, S: SizePrefix, T: ParseMessageBytes<'a>> ParseMessageBytes<'a> for SizePrefixed<S, T> {
    fn parse_message_bytes(
        contents: &'a [u8],
        start: usize,
    ) -> Result<SizePrefixed<S, T>, ParseError> {
        whole_message(SizePrefixed::split_message_bytes(contents, start), contents)
    }
}

impl<'a, S: SizePrefix, T: ParseMessageBytes<'a>> SplitMessageBytes<'a> for SizePrefixed<S, T> {
    #[tactic(auto, unfolding(crate::specs::Prefixed::prefixed_at))]
    fn split_message_bytes(
        contents: &'a [u8],
        start: usize,
    ) -> Result<(SizePrefixed<S, T>, usize), ParseError> {
        let (size, body) = split_size_at::<S>(contents, start)?;
        if contents.len() - body < size {
            return Err(ParseError);
        }
        let end = body + size;
        let inner = T::parse_message_bytes(&contents[..end], body)?;
        Ok((SizePrefixed::new(inner), end))
    }
}

impl<S: SizePrefix, T: BuildBytes> BuildBytes for SizePrefixed<S, T> {
    ghost octets = { λ v. sized S.number_width (T.octets v) };

    ghost fits = { λ v. (length (T.octets v) < 256 ^ byte_len S.number_width) × T.fits v };

    fn build_at(&self, bytes: &mut [u8], start: usize) -> Result<usize, TruncationError> {
        let width = S::width();
        if bytes.len() - start < width {
            return Err(TruncationError);
        }
        let body = start + width;
        let end = self.content.build_at(bytes, body)?;
        let size = end - body;
        if !can_say::<S>(size) {
            return Err(TruncationError);
        }
        S::write_size(size, &mut bytes[start..]);
        Ok(end)
    }

    fn built_bytes_size(&self) -> usize {
        S::width() + self.content.built_bytes_size()
    }
}
