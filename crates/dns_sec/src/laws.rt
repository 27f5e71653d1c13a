//! The definitions of this crate in other words.

ghost use Rattle.std.specs.Prelude.{◌≡◌};

use crate::digest_type::DigestType;
use crate::sec_alg::SecAlg;
use crate::zonemd_hash_alg::ZoneMDHashAlg;
use crate::zonemd_scheme::ZoneMDScheme;

/// The numbers of the codes that have a name here (RFC 4034 appendix A, RFC 8976 sections 5.2 and 5.3).
pub fn code_numbers()
    ensures dsa_sha1 { SecAlg.DSA_SHA1.code ≡ 3 }
    ensures rsa_sha1 { SecAlg.RSA_SHA1.code ≡ 5 }
    ensures sha1 { DigestType.SHA1.code ≡ 1 }
    ensures simple { ZoneMDScheme.SIMPLE.code ≡ 1 }
    ensures sha384 { ZoneMDHashAlg.SHA384.code ≡ 1 }
    ensures sha512 { ZoneMDHashAlg.SHA512.code ≡ 2 }
{}
