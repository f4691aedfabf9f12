// A bank over lent bytes.
ghost use Rattle.banks.specs.Layout.{capped, capped_few, paired};

use crate::lent::LentBank;
use crate::{Bank, MOST_CELLS, inside};
use panel::Refusal;

// Two lent bytes for each cell, high byte first; an odd last byte and bytes past the first 65,535 cells are unused.
pub type ByteBank<'a> = LentBank<'a, u8>;

impl<'a> Bank for LentBank<'a, u8> {
    ghost words = { λ b. capped (paired b.memory.now) };

    ghost few = { λ b. capped_few (paired b.memory.now) };

    fn size(&self) -> usize {
        (self.memory.len() / 2).min(MOST_CELLS)
    }

    fn read(&self, cell: usize) -> Result<u16, Refusal> {
        inside(cell, self.size())?;
        let at = 2 * cell;
        Ok(u16::from_be_bytes([self.memory[at], self.memory[at + 1]]))
    }

    fn put(&mut self, cell: usize, word: u16) -> Result<(), Refusal> {
        inside(cell, self.size())?;
        let at = 2 * cell;
        [self.memory[at], self.memory[at + 1]] = word.to_be_bytes();
        Ok(())
    }
}
