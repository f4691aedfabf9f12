// Lists of pairs: what is listed, and the list after an edit. An edit copies the list where it changes it, and returns there:
// handed on behind the `if`, the row would be copied more often.
ghost use Rattle.std.specs.Prelude.{◌≡◌, ◌<◌, ◌≤◌, [], ◌∷◌, ◌++◌, length, slice_set};
ghost use Rattle.std.specs.List.{slice_get, remove};
ghost use Rattle.mains.specs.Lists.{listed, appended, relisted, unlisted, of_pairs};
ghost use Rattle.mains.specs.Laws.{WellListed, Relists};

use crate::PairList;
use crate::rows::take_out;

// The most pairs that a list holds.
const MOST_PAIRS: usize = 32;

#[tactic(auto, using(crate::proofs::Contracts::of_lists))]
impl PairList {
    // The list of two pairs.
    pub fn of_pairs(first: u16, second: u16) -> PairList
        ensures value { result ≡ of_pairs first second }
        ensures lists { listed result ≡ first ∷ (second ∷ []) }
        ensures formed { WellListed result }
    {
        let mut pairs = [0; 32];
        pairs[0] = first;
        pairs[1] = second;
        PairList { count: 2, pairs }
    }

    // How many pairs are listed.
    pub fn len(&self) -> usize
        ensures value { result ≡ length (listed self.now) }
        ensures most { result ≤ 32 }
    {
        usize::from(self.count).min(MOST_PAIRS)
    }

    // The pairs, in order.
    pub fn as_slice(&self) -> &[u16]
        ensures { result.now ≡ listed self.now }
    {
        &self.pairs[..self.len()]
    }

    // The pair at a place, if the list has one there.
    pub fn at(&self, place: usize) -> Option<u16>
        ensures { result ≡ slice_get (listed self.now) place }
    {
        self.as_slice().get(place).copied()
    }

    // The list with one more pair at its end; a full list stays as it is.
    pub fn appended(self, pair: u16) -> PairList
        ensures value { result ≡ appended self pair }
        ensures law { self.count < 32 → Relists self (listed self ++ (pair ∷ [])) result }
    {
        let len = usize::from(self.count);
        if len < MOST_PAIRS {
            let mut list = self;
            list.pairs[len] = pair;
            list.count += 1;
            return list;
        }
        self
    }

    // The list with another pair at a place; a place past its end changes nothing.
    pub fn replaced(self, place: usize, pair: u16) -> PairList
        ensures value { result ≡ relisted self place pair }
        ensures law { Relists self (slice_set (listed self) place pair) result }
    {
        if place < self.len() {
            let mut list = self;
            list.pairs[place] = pair;
            return list;
        }
        self
    }

    // The list without the pair at a place, the others in order; a place past its end changes nothing.
    pub fn removed(self, place: usize) -> PairList
        ensures value { result ≡ unlisted self place }
        ensures law { Relists self (remove (listed self) place) result }
    {
        let len = self.len();
        if place < len {
            let mut list = self;
            take_out(&mut list.pairs, place, 0);
            list.count = (len - 1) as u8;
            return list;
        }
        self
    }
}
