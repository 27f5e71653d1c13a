//! Options.

ghost use Rattle.dns_wire.specs.ReadingLemmas.{plain_ends};
ghost use Rattle.dns_edns.specs.SuitingLemmas.{suited_option_leaves};
ghost use Rattle.std.specs.Prelude.{◌≡◌, ◌↔◌, ◌≤◌, ◌<◌, ◌^◌, [], length, Ok, IsTrue};
ghost use Rattle.dns_wire.specs.Building.{Builds};
ghost use Rattle.dns_wire.specs.Reading.{Gives, plain_at};
ghost use Rattle.dns_edns.specs.Options.{option_octets};
ghost use Rattle.dns_edns.specs.Suiting.{Suited, suited, suited_option, seen_option, seen_item, option_code_of, option_content_of};

use crate::client_cookie::ClientCookie;
use crate::cookie::Cookie;
use crate::ext_error::ExtError;
use crate::option_code::OptionCode;
use crate::unknown_option::UnknownOptionData;
use crate::unparsed_option::UnparsedEdnsOption;
use dns_num::{SizePrefixed, U16};
use dns_wire::{BuildBytes, ParseBytes, ParseError, SplitBytes, TruncationError, whole};

/// An option with its data, as its code says (RFC 6891 section 6.1.2).
#[derive(Clone, Copy, Debug, PartialEq, Eq, Hash)]
pub enum EdnsOption<'a> {
    /// The cookie of a client alone (RFC 7873 section 4.1).
    ClientCookie(ClientCookie),
    /// The cookies of a client and of a server (RFC 7873 section 4.2).
    Cookie(Cookie<'a>),
    /// An extended error (RFC 8914 section 2).
    ExtError(ExtError<'a>),
    /// An option of another code.
    Unknown(OptionCode, UnknownOptionData<'a>),
}

impl EdnsOption<'_> {
    /// What the option is: 10 for both kinds of cookies, and 15 for an extended error.
    pub fn code(&self) -> OptionCode
        ensures { result.code.value ≡ option_code_of (seen_option self.now) }
    {
        match self {
            EdnsOption::ClientCookie(_) | EdnsOption::Cookie(_) => OptionCode::COOKIE,
            EdnsOption::ExtError(_) => OptionCode::EXT_ERROR,
            EdnsOption::Unknown(code, _) => *code,
        }
    }
}

/// The option with its data. `ParseError` comes exactly if they don't suit the code.
pub(crate) fn known<'a>(option: &UnparsedEdnsOption<'a>) -> Result<EdnsOption<'a>, ParseError>
    ensures { Gives seen_option result (suited option.now.code.code.value option.now.content.now) }
{
    let octets = *option.content.inner();
    match option.code.code.value {
        10 if octets.len() == 8 => {
            let cookie = ClientCookie::parse_bytes(octets)?;
            Ok(EdnsOption::ClientCookie(cookie))
        }
        10 => {
            let cookie = Cookie::parse_bytes(octets)?;
            Ok(EdnsOption::Cookie(cookie))
        }
        15 => {
            let error = ExtError::parse_bytes(octets)?;
            Ok(EdnsOption::ExtError(error))
        }
        _ => Ok(EdnsOption::Unknown(option.code, UnknownOptionData { octets })),
    }
}

/// Whether what was found is this option, and no data that don't suit their code.
pub(crate) fn is_same(
    found: &Result<EdnsOption<'_>, UnparsedEdnsOption<'_>>,
    option: &EdnsOption<'_>,
) -> bool
    ensures { IsTrue result ↔ (seen_item found.now ≡ Ok (seen_option option.now)) }
{
    match found {
        Ok(found) => found == option,
        Err(_) => false,
    }
}

/// `ParseError` comes exactly if the data don't suit the code.
impl<'a> TryFrom<UnparsedEdnsOption<'a>> for EdnsOption<'a> {
    type Error = ParseError;

    ghost try_from_gives = { λ option tried. Gives seen_option tried (suited option.code.code.value option.content.now) };

    fn try_from(option: UnparsedEdnsOption<'a>) -> Result<EdnsOption<'a>, ParseError> {
        known(&option)
    }
}

impl<'a> ParseBytes<'a> for EdnsOption<'a> {
    ghost Seen = { Suited };

    ghost seen = { seen_option };

    ghost reads = { suited_option };

    ghost reads_at = { plain_at suited_option };

    ghost leaves_rest = { suited_option_leaves };

    ghost ends_within = { plain_ends suited_option suited_option_leaves };

    fn parse_bytes(bytes: &'a [u8]) -> Result<EdnsOption<'a>, ParseError> {
        whole(EdnsOption::split_bytes(bytes))
    }
}

impl<'a> SplitBytes<'a> for EdnsOption<'a> {
    fn split_bytes(bytes: &'a [u8]) -> Result<(EdnsOption<'a>, &'a [u8]), ParseError> {
        let (option, rest) = UnparsedEdnsOption::split_bytes(bytes)?;
        let option = EdnsOption::try_from(option)?;
        Ok((option, rest))
    }
}

/// Writes the code, and the data after their size.
fn build_option<T: BuildBytes>(
    code: OptionCode,
    content: &T,
    bytes: &mut [u8],
    start: usize,
) -> Result<usize, TruncationError>
    requires { start ≤ length bytes.old }
    ensures { Builds ((length (T.octets content.now) < 2 ^ 16) × T.fits content.now) (option_octets code.code.value (T.octets content.now)) bytes.old start bytes.new result }
{
    (code, SizePrefixed::<U16, &T>::new(content)).build_at(bytes, start)
}

/// `TruncationError` also comes if the data are more than 65,535 octets.
impl BuildBytes for EdnsOption<'_> {
    ghost octets = { λ v. option_octets (option_code_of (seen_option v)) (option_content_of (seen_option v)) };

    ghost fits = { λ v. length (option_content_of (seen_option v)) < 2 ^ 16 };

    fn build_at(&self, bytes: &mut [u8], start: usize) -> Result<usize, TruncationError> {
        match self {
            EdnsOption::ClientCookie(cookie) => build_option(self.code(), cookie, bytes, start),
            EdnsOption::Cookie(cookie) => build_option(self.code(), cookie, bytes, start),
            EdnsOption::ExtError(error) => build_option(self.code(), error, bytes, start),
            EdnsOption::Unknown(code, content) => build_option(*code, content, bytes, start),
        }
    }

    fn built_bytes_size(&self) -> usize {
        4 + match self {
            EdnsOption::ClientCookie(cookie) => cookie.built_bytes_size(),
            EdnsOption::Cookie(cookie) => cookie.built_bytes_size(),
            EdnsOption::ExtError(error) => error.built_bytes_size(),
            EdnsOption::Unknown(_, content) => content.built_bytes_size(),
        }
    }
}
