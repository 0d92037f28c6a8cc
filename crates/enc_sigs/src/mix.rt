//! Numbers of 128 bits for bytes and for what is read, by which what may be equal is found. No way is
//! known to two things of one number but to try some 2^64.
ghost use Rattle.std.specs.Prelude.{◌≡◌, ◌≤◌, length, drop, slice_index};
ghost use Rattle.std.specs.Int.{w64, from_le_bytes};
ghost use Rattle.enc_sigs.specs.Mix.{mix_of, round, rounds, added, mixed, mixed_both, mixed_bytes, mixed_whole, mixed_ends, finished};

/// Two words for all that was mixed.
#[derive(Clone, Copy, Debug, PartialEq, Eq)]
pub struct Mix {
    pub high: u64,
    pub low: u64,
}

/// What a number begins.
#[tactic(auto, unfolding(crate::specs::Mix::mix_of))]
pub fn mix_of(number: u64) -> Mix
    ensures { result ≡ mix_of number }
{
    Mix {
        high: 0,
        low: number,
    }
}

/// A round of the cipher Speck of 128 bits, with its key.
#[tactic(auto, unfolding(crate::specs::Mix::round))]
fn round(mix: Mix, key: u64) -> Mix
    ensures { result ≡ round mix key }
{
    let high = mix.high.rotate_right(8).wrapping_add(mix.low) ^ key;
    Mix {
        high,
        low: mix.low.rotate_left(3) ^ high,
    }
}

/// So many rounds, each with the key and its own number.
#[tactic(auto, using(crate::proofs::Rounds::rounds_none, crate::proofs::Rounds::rounds_more))]
fn rounds(key: u64, mix: Mix, many: u64) -> Mix
    ensures { result ≡ rounds key mix many }
{
    let mut state = mix;
    for k in 0..many {
        state = round(state, key ^ k);
    }
    state
}

/// Both words of two.
#[tactic(auto, unfolding(crate::specs::Mix::added))]
fn added(mix: Mix, other: Mix) -> Mix
    ensures { result ≡ added mix other }
{
    Mix {
        high: mix.high ^ other.high,
        low: mix.low ^ other.low,
    }
}

/// A number mixed in: eight rounds with it for a key, and what there was before.
#[tactic(auto, unfolding(crate::specs::Mix::mixed))]
pub fn mixed(mix: Mix, number: u64) -> Mix
    ensures { result ≡ mixed mix number }
{
    added(mix, rounds(number, mix, 8))
}

/// Another one mixed in.
#[tactic(auto, unfolding(crate::specs::Mix::mixed_both))]
pub fn mixed_both(mix: Mix, other: Mix) -> Mix
    ensures { result ≡ mixed_both mix other }
{
    mixed(mixed(mix, other.high), other.low)
}

/// The byte at a place, 0 past the end.
fn byte(bytes: &[u8], at: usize) -> u8
    ensures { result ≡ slice_index bytes.now at }
{
    match bytes.get(at) {
        Some(byte) => *byte,
        None => 0,
    }
}

/// The first eight bytes of fewer as a number, zeros for those past the end.
fn short_word(bytes: &[u8]) -> u64
    ensures { result ≡ from_le_bytes w64 bytes.now }
{
    u64::from_le_bytes([
        byte(bytes, 0),
        byte(bytes, 1),
        byte(bytes, 2),
        byte(bytes, 3),
        byte(bytes, 4),
        byte(bytes, 5),
        byte(bytes, 6),
        byte(bytes, 7),
    ])
}

/// The first eight bytes as a number.
fn word(bytes: &[u8]) -> u64
    ensures { result ≡ from_le_bytes w64 bytes.now }
{
    match bytes.first_chunk::<8>() {
        Some(whole) => u64::from_le_bytes(*whole),
        None => short_word(bytes),
    }
}

/// The eight bytes at a place as a number.
fn word_at(bytes: &[u8], at: usize) -> u64
    requires { at ≤ length bytes.now }
    ensures { result ≡ from_le_bytes w64 (drop at bytes.now) }
{
    word(&bytes[at..])
}

/// Bytes mixed in, eight at a time.
#[tactic(auto, using(crate::proofs::Rounds::words_steps), unfolding(crate::specs::Mix::mixed_bytes))]
fn mixed_bytes(mix: Mix, bytes: &[u8]) -> Mix
    ensures { result ≡ mixed_bytes mix bytes.now }
{
    let mut state = mix;
    for k in 0..bytes.len() / 8 + 1 {
        state = mixed(state, word_at(bytes, 8 * k));
    }
    state
}

/// The length of some bytes and all of them mixed in.
#[tactic(auto, unfolding(crate::specs::Mix::mixed_whole))]
pub fn mixed_whole(mix: Mix, bytes: &[u8]) -> Mix
    ensures { result ≡ mixed_whole mix bytes.now }
{
    mixed_bytes(mixed(mix, bytes.len() as u64), bytes)
}

/// The length of some bytes and so many at either end mixed in.
#[tactic(auto, unfolding(crate::specs::Mix::mixed_ends))]
pub fn mixed_ends(most: usize, mix: Mix, bytes: &[u8]) -> Mix
    ensures { result ≡ mixed_ends most mix bytes.now }
{
    let size = bytes.len();
    let front = most.min(size);
    let back = front.max(size - front);
    mixed_bytes(
        mixed_bytes(mixed(mix, size as u64), &bytes[..front]),
        &bytes[back..],
    )
}

/// 64 bits of what was mixed.
#[tactic(auto, unfolding(crate::specs::Mix::finished))]
pub fn finished(mix: Mix) -> u64
    ensures { result ≡ finished mix }
{
    let last = mixed(mix, 0);
    last.high ^ last.low
}
