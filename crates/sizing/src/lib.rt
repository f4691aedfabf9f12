// How large a table must be for given keys.
#![tactic(auto)]

ghost use Rattle.std.specs.Prelude.{◌≡◌, ℕ, ◌+◌, ◌*◌, ◌^◌, ◌≤◌, map, IfOk, Some};
ghost use Rattle.sizing.specs.Demand.{holds, different, cells_for, capacity_of, within_limits_of, figures_text};
ghost use Rattle.sizing.specs.Depths.{larger_two, deepest_two_of};
ghost use Rattle.sizing.specs.Law.{Counts};

pub mod lines;

use keys::Key;
use keys::routes::parting;
use panel::Refusal;
use std::alloc::{AllocError, Global};
use std::fmt;

// What a table at rest needs.
#[derive(Clone, Copy)]
pub struct Capacity {
    pub pairs: usize,
    pub cells: usize,
}

impl Capacity {
    // The largest table.
    pub const MOST_PAIRS: usize = 16_384;

    pub const MOST_CELLS: usize = 4_096;

    // The figures again, if a table may be so large.
    pub fn within_limits(self) -> Result<Capacity, Refusal>
        ensures { result ≡ within_limits_of self }
    {
        if self.pairs <= Capacity::MOST_PAIRS && self.cells <= Capacity::MOST_CELLS {
            Ok(self)
        } else {
            Err(Refusal::FigureOutOfLimits)
        }
    }
}

impl fmt::Display for Capacity {
    ghost output = { λ c. Some (figures_text c) };

    fn fmt<W: fmt::Write>(&self, f: &mut fmt::Formatter<W>) -> fmt::Result {
        write!(f, "pairs={} cells={}", self.pairs, self.cells)
    }
}

// The pairs and cells that a table at rest with exactly these keys needs; equal keys count once.
pub fn capacity_for<K: Key>(heap: Global, keys: &[K]) -> Result<Capacity, AllocError>
    ensures figures { IfOk result (λ c. c ≡ capacity_of K.eq K.hash keys.now) }
    ensures counts { IfOk result (λ c. Counts K.eq K.hash keys.now c) }
    ensures few { IfOk result (λ c. c.cells ≤ 1 + 7 * 2 ^ 32) }
{
    let chosen = different(heap, keys)?;
    let hashes: Vec<u32> = chosen.iter().map(|key| key.hash()).collect(heap)?;
    Ok(Capacity {
        pairs: chosen.len(),
        cells: cells_for(hashes.as_slice()),
    })
}

// The keys in the order in which they come, those that equal an earlier one left out. A loop, which hands on that a push had
// no memory.
#[tactic(auto, unfolding(crate::specs::Demand::different))]
fn different<K: Key>(heap: Global, keys: &[K]) -> Result<Vec<K>, AllocError>
    ensures { IfOk result (λ chosen. chosen.items ≡ different K.eq keys.now) }
{
    let mut chosen = Vec::new(heap);
    for key in keys {
        if !is_held(chosen.as_slice(), *key) {
            chosen.push(*key)?;
        }
    }
    Ok(chosen)
}

// Whether an equal key is among them. By `any`, and the key by value: `contains` tests four at a time behind a reference, and
// takes longer here.
fn is_held<K: Key>(keys: &[K], key: K) -> bool
    ensures { result ≡ holds K.eq keys.now key }
{
    keys.iter().any(|held| *held == key)
}

// The cells for different keys with these hashes. A loop and no sum, since its invariant shows that each addition fits.
#[tactic(auto, using(crate::proofs::Progress::of_cells))]
fn cells_for(hashes: &[u32]) -> usize
    ensures { result ≡ cells_for hashes.now }
{
    let mut cells = 1;
    for (i, hash) in hashes.iter().enumerate() {
        // Past `second`, up to `deepest`, this key is the second one to share a prefix.
        let (deepest, second) = deepest_two(*hash, &hashes[..i]);
        cells += (deepest - second) as usize;
    }
    cells
}

// The two deepest indices at which a hash parts from others.
#[tactic(auto, unfolding(crate::specs::Depths::deepest_two_of))]
fn deepest_two(hash: u32, others: &[u32]) -> (u32, u32)
    ensures { result ≡ deepest_two_of hash others.now }
{
    others.iter().fold(
        (0, 0),
        |two, other| larger_two(two, parting(hash, *other, 0)),
    )
}

// The two largest of two numbers, the larger first, and one more.
fn larger_two(two: (u32, u32), more: u32) -> (u32, u32)
    ensures { result ≡ larger_two two more }
{
    let (largest, second) = two;
    if more > largest {
        (more, largest)
    } else {
        (largest, second.max(more))
    }
}
