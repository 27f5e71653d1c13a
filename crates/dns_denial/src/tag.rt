//! The tag of a key (RFC 4034 appendix B).

ghost use Rattle.std.specs.Prelude.{◌≡◌, ◌≤◌, length};
ghost use Rattle.dns_denial.specs.KeyTags.{is_rsa_md5, tag};

/// The tag of a key by the data of its DNSKEY record, for every algorithm but 1 (RFC 4034 appendix B). The condition is that the data have at
/// most 65,535 octets, as their number is in two octets (RFC 1035 section 3.2.1).
pub fn key_tag(octets: &[u8]) -> u16
    requires { length octets.now ≤ 65535 }
    ensures { result ≡ tag octets.now }
{
    let mut sum = 0u64;
    for (index, octet) in octets.iter().enumerate() {
        let octet = u64::from(*octet);
        sum += if index % 2 == 0 { octet * 256 } else { octet };
    }
    ((sum + sum / 65536 % 65536) % 65536) as u16
}

/// Whether the algorithm of a key is RSA/MD5, by the data of its DNSKEY record: their fourth octet is 1 (RFC 4034 section 2.1 and appendix
/// A.1). The tags of such keys are taken in another way (RFC 4034 appendix B.1).
pub(crate) fn is_rsa_md5(octets: &[u8]) -> bool
    ensures { result ≡ is_rsa_md5 octets.now }
{
    octets.len() > 3 && octets[3] == 1
}
