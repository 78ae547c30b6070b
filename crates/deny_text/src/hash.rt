//! XXH32, the fast hash of 32 bits, with initial value 0.
ghost use Rattle.std.specs.Prelude.{◌≡◌, ◌+◌, ◌≤◌, length, fold, take, drop};
ghost use Rattle.deny_text.specs.Hash.{word_of, round, stripe, start, merged_lanes, of_groups, with_word};
ghost use Rattle.deny_text.specs.Hash.{with_byte, mixed_hash, whole_groups, after_groups, xxh32_of};
ghost use Rattle.deny_text.specs.Hash.{HashIgnoresReturns};

const PRIME_1: u32 = 2_654_435_761;

const PRIME_2: u32 = 2_246_822_519;

const PRIME_3: u32 = 3_266_489_917;

const PRIME_4: u32 = 668_265_263;

const PRIME_5: u32 = 374_761_393;

/// Four words side by side: those of a group of 16 bytes, or the accumulators that take them in.
#[derive(Clone, Copy)]
struct Lanes {
    first: u32,
    second: u32,
    third: u32,
    fourth: u32,
}

/// The accumulators at the start: the sum of the first two primes, the second, 0, and 0 less the first,
/// modulo 2^32.
const START: Lanes = Lanes {
    first: 606_290_984,
    second: PRIME_2,
    third: 0,
    fourth: 1_640_531_535,
};

/// The word of the four bytes from `at` on.
#[inline]
fn word_at(bytes: &[u8], at: usize) -> u32
    requires { at + 4 ≤ length bytes.now }
    ensures { result ≡ word_of (take 4 (drop at bytes.now)) }
{
    u32::from_le_bytes([bytes[at], bytes[at + 1], bytes[at + 2], bytes[at + 3]])
}

#[inline]
fn round(accumulator: u32, lane: u32) -> u32
    ensures { result ≡ round accumulator lane }
{
    accumulator
        .wrapping_add(lane.wrapping_mul(PRIME_2))
        .rotate_left(13)
        .wrapping_mul(PRIME_1)
}

#[tactic(auto, unfolding(crate::specs::Hash::stripe))]
#[inline]
fn stripe(sums: Lanes, group: &[u8; 16]) -> Lanes
    ensures { result ≡ stripe sums group.now }
{
    Lanes {
        first: round(sums.first, word_at(group, 0)),
        second: round(sums.second, word_at(group, 4)),
        third: round(sums.third, word_at(group, 8)),
        fourth: round(sums.fourth, word_at(group, 12)),
    }
}

fn merged(sums: Lanes) -> u32
    ensures { result ≡ merged_lanes sums }
{
    sums.first
        .rotate_left(1)
        .wrapping_add(sums.second.rotate_left(7))
        .wrapping_add(sums.third.rotate_left(12))
        .wrapping_add(sums.fourth.rotate_left(18))
}

/// The accumulators after the groups of 16 bytes.
fn stripes(groups: &[[u8; 16]]) -> Lanes
    ensures { result ≡ fold stripe start groups.now }
{
    groups.iter().fold(START, |sums, group| stripe(sums, group))
}

/// What the groups of 16 bytes come to, and the bytes after them.
#[tactic(auto, unfolding(crate::specs::Hash::of_groups))]
fn of_groups(bytes: &[u8]) -> (u32, &[u8])
    ensures hash { result.0 ≡ of_groups bytes.now }
    ensures rest { result.1.now ≡ after_groups 16 bytes.now }
{
    let (groups, rest) = bytes.as_chunks::<16>();
    if bytes.len() < 16 {
        (PRIME_5, rest)
    } else {
        (merged(stripes(groups)), rest)
    }
}

#[tactic(auto, unfolding(crate::specs::Hash::with_word))]
fn with_word(hash: u32, group: &[u8; 4]) -> u32
    ensures { result ≡ with_word hash group.now }
{
    hash.wrapping_add(word_at(group, 0).wrapping_mul(PRIME_3))
        .rotate_left(17)
        .wrapping_mul(PRIME_4)
}

/// The hash after the whole words, and the bytes after these.
fn with_words(start: u32, bytes: &[u8]) -> (u32, &[u8])
    ensures hash { result.0 ≡ fold with_word start (whole_groups 4 bytes.now) }
    ensures rest { result.1.now ≡ after_groups 4 bytes.now }
{
    let (words, rest) = bytes.as_chunks::<4>();
    let hash = words.iter().fold(start, |hash, word| with_word(hash, word));
    (hash, rest)
}

#[tactic(auto, unfolding(crate::specs::Hash::with_byte))]
fn with_byte(hash: u32, byte: u8) -> u32
    ensures { result ≡ with_byte hash byte }
{
    hash.wrapping_add(u32::from(byte).wrapping_mul(PRIME_5))
        .rotate_left(11)
        .wrapping_mul(PRIME_1)
}

fn with_bytes(start: u32, bytes: &[u8]) -> u32
    ensures { result ≡ fold with_byte start bytes.now }
{
    bytes
        .iter()
        .fold(start, |hash, byte| with_byte(hash, *byte))
}

#[tactic(auto, unfolding(crate::specs::Hash::mixed_hash))]
fn mixed(hash: u32) -> u32
    ensures { result ≡ mixed_hash hash }
{
    let high = (hash ^ (hash >> 15)).wrapping_mul(PRIME_2);
    let middle = (high ^ (high >> 13)).wrapping_mul(PRIME_3);
    middle ^ (middle >> 16)
}

/// XXH32 of the bytes, with initial value 0. It takes no memory.
#[tactic(auto, unfolding(crate::specs::Hash::xxh32_of))]
pub fn hash(bytes: &[u8]) -> u32
    ensures { result ≡ xxh32_of bytes.now }
{
    let length = (bytes.len() % 0x1_0000_0000) as u32;
    let (hash, rest) = of_groups(bytes);
    let (hash, rest) = with_words(hash.wrapping_add(length), rest);
    mixed(with_bytes(hash, rest))
}

/// Turning each LF of a text into CR LF leaves the hash of its normal form as it was.
pub fn hash_ignores_returns()
    ensures { HashIgnoresReturns }
{}
