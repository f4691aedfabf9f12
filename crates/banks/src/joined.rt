// A bank made of two banks.
ghost use Rattle.std.specs.Prelude.{◌≡◌, ◌++◌};
ghost use Rattle.banks.specs.Layout.{capped, capped_few};

use crate::{Bank, MOST_CELLS, inside};
use panel::Refusal;

// The cells of the first bank, then those of the second; cells past the first 65,535 are unused.
#[derive(Drop)]
pub struct JoinedBank<A, B> {
    first: A,
    second: B,
}

impl<A, B> JoinedBank<A, B> {
    // The bank of both banks' cells, the first one's lowest.
    pub fn of(first: A, second: B) -> JoinedBank<A, B>
        ensures lowest { result.first ≡ first }
        ensures highest { result.second ≡ second }
    {
        JoinedBank { first, second }
    }
}

impl<A: Bank, B: Bank> Bank for JoinedBank<A, B> {
    ghost words = { λ b. capped (A.Bank.words b.first ++ B.Bank.words b.second) };

    ghost few = { λ b. capped_few (A.Bank.words b.first ++ B.Bank.words b.second) };

    fn size(&self) -> usize {
        (self.first.size() + self.second.size()).min(MOST_CELLS)
    }

    // The half is chosen in each call, since each asks another thing of it. A cell past the end is left to the second
    // half's own refusal, so that no size but the first half's is asked.
    fn read(&self, cell: usize) -> Result<u16, Refusal> {
        let start = self.first.size();
        if cell < start {
            self.first.read(cell)
        } else {
            inside(cell, MOST_CELLS)?;
            self.second.read(cell - start)
        }
    }

    // The half's own swap, which may be one step of its bus.
    fn swap(&mut self, cell: usize, old: u16, new: u16) -> Result<bool, Refusal> {
        let start = self.first.size();
        if cell < start {
            self.first.swap(cell, old, new)
        } else {
            inside(cell, MOST_CELLS)?;
            self.second.swap(cell - start, old, new)
        }
    }

    fn put(&mut self, cell: usize, word: u16) -> Result<(), Refusal> {
        let start = self.first.size();
        if cell < start {
            self.first.put(cell, word)
        } else {
            inside(cell, MOST_CELLS)?;
            self.second.put(cell - start, word)
        }
    }
}
