// A bank over lent words.
ghost use Rattle.banks.specs.Layout.{capped, capped_few};

use crate::lent::LentBank;
use crate::{Bank, MOST_CELLS, inside};
use panel::Refusal;

// A cell for each lent word; words past the first 65,535 are unused.
pub type WordBank<'a> = LentBank<'a, u16>;

impl<'a> Bank for LentBank<'a, u16> {
    ghost words = { λ b. capped b.memory.now };

    ghost few = { λ b. capped_few b.memory.now };

    fn size(&self) -> usize {
        self.memory.len().min(MOST_CELLS)
    }

    fn read(&self, cell: usize) -> Result<u16, Refusal> {
        inside(cell, self.size())?;
        Ok(self.memory[cell])
    }

    fn put(&mut self, cell: usize, word: u16) -> Result<(), Refusal> {
        inside(cell, self.size())?;
        self.memory[cell] = word;
        Ok(())
    }
}
