//! SipHash-2-4, as a user passes it in (RFC 9018 section 4.4).

ghost use Rattle.std.specs.Prelude.{◌≡◌, ◌+◌, ◌≤◌, length, take, drop};
ghost use Rattle.std.specs.Int.{w64, from_le_bytes};
ghost use Rattle.dns_data_tests.specs.SipHash.{start, round, with_word, with_words, last_word, finish, sip_hash};

use dns_edns::KeyedHash;

/// Four words.
type State = (u64, u64, u64, u64);

/// SipHash-2-4.
pub(crate) struct SipHash;

impl KeyedHash for SipHash {
    ghost keyed = { λ _ secret input. sip_hash secret input };

    fn hash(&self, secret: &[u8; 16], input: &[u8]) -> [u8; 8] {
        sip_hash(secret, input)
    }
}

/// The hash of the input under the key.
#[tactic(auto, unfolding(crate::specs::SipHash::with_words, crate::specs::SipHash::sip_hash))]
fn sip_hash(secret: &[u8; 16], input: &[u8]) -> [u8; 8]
    ensures { result ≡ sip_hash secret.now input.now }
{
    let mut state = start(secret);
    for n in 0..input.len() / 8 {
        state = with_word(state, word(input, 8 * n));
    }
    finish(with_word(state, last_word(input))).to_le_bytes()
}

/// The words that a key begins with.
fn start(secret: &[u8; 16]) -> State
    ensures { result ≡ start secret.now }
{
    let k0 = word(secret, 0);
    let k1 = word(secret, 8);
    (
        k0 ^ 0x736f_6d65_7073_6575,
        k1 ^ 0x646f_7261_6e64_6f6d,
        k0 ^ 0x6c79_6765_6e65_7261,
        k1 ^ 0x7465_6462_7974_6573,
    )
}

/// The eight octets from a place on, as a word.
fn word(octets: &[u8], at: usize) -> u64
    requires { at + 8 ≤ length octets.now }
    ensures { result ≡ from_le_bytes w64 (take 8 (drop at octets.now)) }
{
    match octets[at..].first_chunk::<8>() {
        Some(word) => u64::from_le_bytes(*word),
        None => 0,
    }
}

/// The octets after the last whole word, zeros, and the number of all octets, as a word.
fn last_word(input: &[u8]) -> u64
    ensures { result ≡ last_word input.now }
{
    let rest = &input[8 * (input.len() / 8)..];
    let mut word = [0; 8];
    word[..rest.len()].copy_from_slice(rest);
    word[7] = (input.len() % 256) as u8;
    u64::from_le_bytes(word)
}

/// One round.
#[tactic(auto, unfolding(crate::specs::SipHash::round))]
fn round(v: State) -> State
    ensures { result ≡ round v }
{
    let v0 = v.0.wrapping_add(v.1);
    let v2 = v.2.wrapping_add(v.3);
    let v1 = v.1.rotate_left(13) ^ v0;
    let v3 = v.3.rotate_left(16) ^ v2;
    let v2 = v2.wrapping_add(v1);
    let v0 = v0.rotate_left(32).wrapping_add(v3);
    (
        v0,
        v1.rotate_left(17) ^ v2,
        v2.rotate_left(32),
        v3.rotate_left(21) ^ v0,
    )
}

/// The words after one word of the input, with two rounds.
#[tactic(auto, unfolding(crate::specs::SipHash::with_word))]
fn with_word(v: State, word: u64) -> State
    ensures { result ≡ with_word v word }
{
    let v = round(round((v.0, v.1, v.2, v.3 ^ word)));
    (v.0 ^ word, v.1, v.2, v.3)
}

/// The hash of the words, with four rounds.
#[tactic(auto, unfolding(crate::specs::SipHash::finish))]
fn finish(v: State) -> u64
    ensures { result ≡ finish v }
{
    let v = round(round(round(round((v.0, v.1, v.2 ^ 0xff, v.3)))));
    v.0 ^ v.1 ^ v.2 ^ v.3
}

/// The octets from 0 on.
const KEY: [u8; 16] = *b"\0\x01\x02\x03\x04\x05\x06\x07\x08\x09\x0a\x0b\x0c\x0d\x0e\x0f";

/// Whether this is the hash of that many octets from 0 on, under the key of the octets from 0 on.
fn hashes(size: usize, hash: &[u8]) -> bool {
    match KEY.get(..size) {
        Some(input) => SipHash.hash(&KEY, input).as_slice() == hash,
        None => false,
    }
}

/// The first vectors of SipHash's own list, and the one of its paper.
#[test]
fn sip_hash_is_that_of_its_paper(rt: HostRuntime) {
    let cases: [(usize, &[u8]); 4] = [
        (0, b"\x31\x0e\x0e\xdd\x47\xdb\x6f\x72"),
        (7, b"\x37\xd1\x01\x8b\xf5\x00\x02\xab"),
        (8, b"\x62\x24\x93\x9a\x79\xf5\xf5\x93"),
        (15, b"\xe5\x45\xbe\x49\x61\xca\x29\xa1"),
    ];
    for (size, hash) in cases {
        assert!(rt; hashes(size, hash), "{size}");
    }
}
