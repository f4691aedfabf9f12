// The route of a hash: its chunks from the root on, its prefixes, and where two hashes part.
ghost use Rattle.std.specs.Prelude.{◌≡◌, ℕ, ◌^◌, ◌<◌};
ghost use Rattle.keys.specs.Routes.{chunk_at, prefix_at, parting_at, Parts, PrefixByChunks};

// The index past the last chunk of a hash.
pub const DEPTH: u32 = 7;

// The chunk of a hash at an index; 0 past the hash's end.
#[tactic(auto, using(crate::proofs::Chunks::of_routes))]
pub fn chunk(hash: u32, index: u32) -> u32
    ensures value { result ≡ chunk_at hash index }
    ensures below { result < 32 }
{
    if index < DEPTH {
        (hash >> (5 * index)) & 31
    } else {
        0
    }
}

// The prefix of an index: the hash's low bits, as many as the chunks below the index have.
#[tactic(auto, using(crate::proofs::Chunks::of_routes))]
pub fn prefix(hash: u32, index: u32) -> u32
    ensures value { result ≡ prefix_at hash index }
    ensures chunks { (g : ℕ) → PrefixByChunks hash g index }
    ensures whole { (g : ℕ) → g < 2 ^ 32 → prefix_at g 7 ≡ prefix_at hash 7 → g ≡ hash }
{
    if index < DEPTH {
        hash & ((1 << (5 * index)) - 1)
    } else {
        hash
    }
}

// The first index from `from` on at which the chunks of two hashes differ, or else 7.
pub fn parting(h: u32, g: u32, from: u32) -> u32
    ensures value { result ≡ parting_at h g from }
    ensures parts { Parts h g from result }
{
    (from..DEPTH)
        .find(|index| chunk(h, *index) != chunk(g, *index))
        .unwrap_or(DEPTH)
}
