//! The definitions of this crate in other words.

ghost use Rattle.std.specs.Prelude.{◌≡◌, ◌↔◌, ◌<◌, ◌^◌, ◌++◌, ◌&&◌, [], bytes_eq, ℕ, List, Some, true, length, nat_eq, pos, IsTrue, IsOk};
ghost use Rattle.std.specs.Cmp.Lexicographic.{pointwise};
ghost use Rattle.std.specs.Hash.{isize, slice, str, u16, u8};
ghost use Rattle.std.specs.Ordering.{nat_cmp};
ghost use Rattle.dns_record.specs.InPlace.{FilledBy};
ghost use Rattle.dns_record.specs.Options.{OptionSeen, is_option_data, is_options, options_of};
ghost use Rattle.dns_edns.specs.Cookies.{IsWithin, IsTaken, unhashed, response};
ghost use Rattle.dns_edns.specs.Flags.{flag_bits};
ghost use Rattle.dns_edns.specs.Suiting.{options_in, seen_option};
ghost use Rattle.dns_edns.specs.declared.edns_option.EdnsOption.TheVariants as option;
ghost use Rattle.dns_wire.specs.Octets.{Octets};

use crate::address::Address;
use crate::client_cookie::ClientCookie;
use crate::cookie::Cookie;
use crate::edns_flags::EdnsFlags;
use crate::edns_option::EdnsOption;
use crate::error::CookieError;
use crate::ext_error::ExtError;
use crate::ext_error_code::ExtErrorCode;
use crate::keyed_hash::KeyedHash;
use crate::option_code::OptionCode;
use crate::unknown_option::UnknownOptionData;
use crate::unparsed_option::UnparsedEdnsOption;
use dns_record::Serial;
use dns_wire::ParseBytes;
use std::hash::Hash;

/// The numbers of the options that have a name here (RFC 7873 section 4, RFC 8914 section 2).
pub fn code_numbers()
    ensures cookie { OptionCode.COOKIE.code.value ≡ 10 }
    ensures ext_error { OptionCode.EXT_ERROR.code.value ≡ 15 }
{}

/// The numbers of the extended errors that have a name here (RFC 8914 section 4, RFC 9250 section 8.4, RFC 9276
/// section 5.2).
pub fn ext_error_numbers()
    ensures other { ExtErrorCode.OTHER.code.value ≡ 0 }
    ensures bad_dnskey_alg { ExtErrorCode.BAD_DNSKEY_ALG.code.value ≡ 1 }
    ensures bad_ds_alg { ExtErrorCode.BAD_DS_ALG.code.value ≡ 2 }
    ensures stale_answer { ExtErrorCode.STALE_ANSWER.code.value ≡ 3 }
    ensures forged_answer { ExtErrorCode.FORGED_ANSWER.code.value ≡ 4 }
    ensures dnssec_indeterminate { ExtErrorCode.DNSSEC_INDETERMINATE.code.value ≡ 5 }
    ensures dnssec_bogus { ExtErrorCode.DNSSEC_BOGUS.code.value ≡ 6 }
    ensures sig_expired { ExtErrorCode.SIG_EXPIRED.code.value ≡ 7 }
    ensures sig_future { ExtErrorCode.SIG_FUTURE.code.value ≡ 8 }
    ensures dnskey_missing { ExtErrorCode.DNSKEY_MISSING.code.value ≡ 9 }
    ensures rrsigs_missing { ExtErrorCode.RRSIGS_MISSING.code.value ≡ 10 }
    ensures not_zsk { ExtErrorCode.NOT_ZSK.code.value ≡ 11 }
    ensures nsec_missing { ExtErrorCode.NSEC_MISSING.code.value ≡ 12 }
    ensures cached_error { ExtErrorCode.CACHED_ERROR.code.value ≡ 13 }
    ensures not_ready { ExtErrorCode.NOT_READY.code.value ≡ 14 }
    ensures blocked { ExtErrorCode.BLOCKED.code.value ≡ 15 }
    ensures censored { ExtErrorCode.CENSORED.code.value ≡ 16 }
    ensures filtered { ExtErrorCode.FILTERED.code.value ≡ 17 }
    ensures prohibited { ExtErrorCode.PROHIBITED.code.value ≡ 18 }
    ensures stale_nxdomain { ExtErrorCode.STALE_NXDOMAIN.code.value ≡ 19 }
    ensures not_authoritative { ExtErrorCode.NOT_AUTHORITATIVE.code.value ≡ 20 }
    ensures not_supported { ExtErrorCode.NOT_SUPPORTED.code.value ≡ 21 }
    ensures no_reachable_authority { ExtErrorCode.NO_REACHABLE_AUTHORITY.code.value ≡ 22 }
    ensures network_error { ExtErrorCode.NETWORK_ERROR.code.value ≡ 23 }
    ensures invalid_data { ExtErrorCode.INVALID_DATA.code.value ≡ 24 }
    ensures too_early { ExtErrorCode.TOO_EARLY.code.value ≡ 26 }
    ensures bad_nsec3_iters { ExtErrorCode.BAD_NSEC3_ITERS.code.value ≡ 27 }
{}

/// The flags by default have no bit (RFC 6891 section 6.1.4).
pub fn default_flags()
    ensures { (flags : _) → ⟦<EdnsFlags as Default>⟧.is_default flags → flag_bits flags ≡ 0 }
{}

/// Codes are equal, and come in order, by their numbers; flags are equal if their bits are.
pub fn codes_are_compared_by_number()
    ensures option { (a b : _) → ⟦<OptionCode as PartialEq>⟧.eq a b ≡ nat_eq a.code.value b.code.value }
    ensures option_order { (a b : _) → ⟦<OptionCode as Ord>⟧.cmp a b ≡ nat_cmp a.code.value b.code.value }
    ensures error { (a b : _) → ⟦<ExtErrorCode as PartialEq>⟧.eq a b ≡ nat_eq a.code.value b.code.value }
    ensures error_order { (a b : _) → ⟦<ExtErrorCode as Ord>⟧.cmp a b ≡ nat_cmp a.code.value b.code.value }
    ensures flags { (a b : _) → ⟦<EdnsFlags as PartialEq>⟧.eq a b ≡ nat_eq (flag_bits a) (flag_bits b) }
{}

/// Codes and flags feed a hasher their numbers.
pub fn codes_are_hashed_by_number()
    ensures option { (v : _) → ⟦<OptionCode as Hash>⟧.hash_input v ≡ u16 v.code.value }
    ensures error { (v : _) → ⟦<ExtErrorCode as Hash>⟧.hash_input v ≡ u16 v.code.value }
    ensures flags { (v : _) → ⟦<EdnsFlags as Hash>⟧.hash_input v ≡ u16 (flag_bits v) }
{}

/// The options that are gone over are those that all the octets spell: one after another, they fill the octets, and octets that
/// options fill are gone over as just these (RFC 6891 section 6.1.2).
pub fn options_of_octets()
    ensures spelled { (bytes : Octets) → is_options bytes ≡ true → options_of bytes ≡ Some (options_in bytes) }
    ensures filled { (bytes : Octets) → is_option_data bytes ≡ true → FilledBy (options_in bytes) bytes }
    ensures read { (bytes : Octets) (options : List OptionSeen) → length bytes < 2 ^ 16 → FilledBy options bytes →
        (is_option_data bytes ≡ true) × (options_in bytes ≡ options) }
{}

/// Options are equal if they are seen as the same: of one kind, with the same code and the same data.
pub fn options_are_equal_by_content()
    ensures { (a b : _) → IsTrue (⟦<EdnsOption<'static> as PartialEq>⟧.eq a b) ↔ (seen_option a ≡ seen_option b) }
{}

/// Cookies and data of unknown options are equal octet by octet; an extended error if its code and its text are, and an
/// option that is not read by its code if code and data are.
pub fn option_data_are_equal_by_octets()
    ensures client { (a b : _) → ⟦<ClientCookie as PartialEq>⟧.eq a b ≡ pointwise nat_eq a.octets b.octets }
    ensures cookie { (a b : _) → ⟦<Cookie<'static> as PartialEq>⟧.eq a b ≡ pointwise nat_eq a.slice.now b.slice.now }
    ensures unknown { (a b : _) → ⟦<UnknownOptionData<'static> as PartialEq>⟧.eq a b ≡ pointwise nat_eq a.octets.now b.octets.now }
    ensures error { (a b : _) → ⟦<ExtError<'static> as PartialEq>⟧.eq a b
        ≡ (nat_eq a.code.code.value b.code.code.value && bytes_eq a.text.now b.text.now) }
    ensures unparsed { (a b : _) → ⟦<UnparsedEdnsOption<'static> as PartialEq>⟧.eq a b
        ≡ (nat_eq a.code.code.value b.code.code.value && pointwise nat_eq a.content.now b.content.now) }
{}

/// Cookies and data of unknown options feed a hasher their octets after the number of these, an extended error its code and
/// its text, and an option that is not read its code and its data.
pub fn option_data_are_hashed_by_octets()
    ensures client { (v : _) → ⟦<ClientCookie as Hash>⟧.hash_input v ≡ slice u8 v.octets }
    ensures cookie { (v : _) → ⟦<Cookie<'static> as Hash>⟧.hash_input v ≡ slice u8 v.slice.now }
    ensures unknown { (v : _) → ⟦<UnknownOptionData<'static> as Hash>⟧.hash_input v ≡ slice u8 v.octets.now }
    ensures error { (v : _) → ⟦<ExtError<'static> as Hash>⟧.hash_input v ≡ u16 v.code.code.value ++ str v.text.now }
    ensures unparsed { (v : _) → ⟦<UnparsedEdnsOption<'static> as Hash>⟧.hash_input v ≡ u16 v.code.code.value ++ slice u8 v.content.now }
{}

/// An option feeds a hasher the number of its kind, from 0, and then its data; one of an unknown code the code before them.
pub fn options_are_hashed_by_content()
    ensures client_cookie { (v : _) → ⟦<EdnsOption<'static> as Hash>⟧.hash_input (option.ClientCookie v) ≡ isize (pos 0) ++ slice u8 v.octets }
    ensures cookie { (v : _) → ⟦<EdnsOption<'static> as Hash>⟧.hash_input (option.Cookie v) ≡ isize (pos 1) ++ slice u8 v.slice.now }
    ensures ext_error { (v : _) → ⟦<EdnsOption<'static> as Hash>⟧.hash_input (option.ExtError v) ≡ isize (pos 2) ++ u16 v.code.code.value ++ str v.text.now }
    ensures unknown { (code : _) (v : _) → ⟦<EdnsOption<'static> as Hash>⟧.hash_input (option.Unknown code v) ≡ isize (pos 3) ++ u16 code.code.value ++ slice u8 v.octets.now }
{}

/// The cookie that a server gives to an address is one that it takes from there, under the same function and
/// secret, if the moment lies in the time (RFC 9018 section 4.3).
pub fn given_cookies()
    ensures { (hash : List ℕ → List ℕ) (client : Octets) (time : ℕ) (address : Octets) (from until : ℕ) →
        length client ≡ 8 → time < 2 ^ 32 → length (hash (unhashed client time ++ address)) ≡ 8 → IsWithin from until time →
        IsTaken hash address from until (response hash client time address) }
{}

/// What `respond_at` and `respond_into` write for an address, `verify` takes from there under the same function and
/// secret exactly if the moment lies in the time: this call does both, one after the other (RFC 9018 section 4).
/// `CookieError` comes exactly if it does not.
pub fn takes_what_it_gives<H: KeyedHash>(
    client: ClientCookie,
    addr: Address,
    secret: &[u8; 16],
    now: Serial,
    from: Serial,
    until: Serial,
    hash: &H,
) -> Result<(), CookieError>
    ensures { IsOk result ↔ IsWithin from.0.value until.0.value now.0.value }
{
    let mut octets = [0; 24];
    let Ok(_end) = client.respond_at(addr, secret, now, hash, &mut octets, 0) else {
        return Err(CookieError);
    };
    let Ok(cookie) = Cookie::parse_bytes(&octets) else {
        return Err(CookieError);
    };
    cookie.verify(addr, secret, from, until, hash)
}

/// Errors are equal exactly if they are the same.
pub fn equal_errors()
    ensures cookie { (a b : _) → IsTrue (⟦<CookieError as PartialEq>⟧.eq a b) ↔ (a ≡ b) }
{}

/// An error that has one value only feeds a hasher nothing.
pub fn hashed_errors()
    ensures cookie { (v : _) → ⟦<CookieError as Hash>⟧.hash_input v ≡ [] }
{}
