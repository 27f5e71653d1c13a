//! Texts of addresses in other words.

ghost use Rattle.std.specs.Prelude.{◌≡◌, ◌≤◌, ◌+◌, ℕ, List, length, take, drop, replicate};
ghost use Rattle.std.specs.Net.Text.{longest_zero_run};
ghost use Rattle.dns_wire.specs.Octets.{Octets};
ghost use Rattle.dns_wire.specs.Reading.{AreOctets};
ghost use Rattle.dns_plain.specs.declared.a.A.{A};
ghost use Rattle.dns_plain.specs.declared.aaaa.Aaaa.{Aaaa};
ghost use Rattle.dns_plain.specs.AddressTexts.{SpellsIpv4, SpellsIpv6, ipv4_text, ipv6_text};

/// What is printed of an address spells it, and a text spells at most one address.
pub fn texts_of_addresses()
    ensures printed { (v : A) → length v.octets ≡ 4 → AreOctets v.octets → SpellsIpv4 (ipv4_text v) v }
    ensures one { (text : Octets) (v other : A) →
        SpellsIpv4 text v → SpellsIpv4 text other → v.octets ≡ other.octets }
    ensures printed_long { (v : Aaaa) → length v.octets ≡ 16 → AreOctets v.octets → SpellsIpv6 (ipv6_text v) v }
    ensures one_long { (text : Octets) (v other : Aaaa) →
        length v.octets ≡ 16 → AreOctets v.octets → length other.octets ≡ 16 → AreOctets other.octets →
        SpellsIpv6 text v → SpellsIpv6 text other → v.octets ≡ other.octets }
{}

/// No run of groups of zero is longer than the one that `::` represents, and none of its length begins before it (RFC 5952
/// sections 4.2.1 and 4.2.3).
pub fn runs_of_zero()
    ensures occurs { (groups : List ℕ) →
        take (longest_zero_run groups).1 (drop (longest_zero_run groups).0 groups) ≡ replicate (longest_zero_run groups).1 0 }
    ensures longest { (groups : List ℕ) (start count : ℕ) → start + count ≤ length groups →
        take count (drop start groups) ≡ replicate count 0 → count ≤ (longest_zero_run groups).1 }
    ensures first { (groups : List ℕ) (start count : ℕ) → start + count ≤ length groups →
        take count (drop start groups) ≡ replicate count 0 → count ≡ (longest_zero_run groups).1 → (longest_zero_run groups).0 ≤ start }
{}
