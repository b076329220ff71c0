// Owns what the benchmarks share: a pseudo-random stream of words, and the digest of what is answered. bench/*.c have the same.
#![tactic(auto)]

ghost use Rattle.std.specs.Prelude.{◌≡◌, bit_xor};
ghost use Rattle.bench_stream.specs.Stream.{shuffled};

// The word after x in the stream: xorshift, of 32 bits.
#[tactic(auto, unfolding(crate::specs::Stream::left_of, crate::specs::Stream::right_of, crate::specs::Stream::shuffled))]
pub fn shuffle(x: u32) -> u32
    ensures { result ≡ shuffled x }
{
    let a = x ^ (x << 13);
    let b = a ^ (a >> 17);
    b ^ (b << 5)
}

// The digest after one value more.
pub fn mix(digest: u32, value: u32) -> u32
    ensures { result ≡ shuffled (bit_xor digest value) }
{
    shuffle(digest ^ value)
}
