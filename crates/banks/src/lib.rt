// Banks of 16-bit words: what a bank is, and what can be done with any of them.
#![tactic(auto)]

ghost use Rattle.std.specs.Prelude.{◌≡◌, ℕ, ◌≤◌, cond, List, length, Ok, Err, nat_lt, slice_set};
ghost use Rattle.panel.specs.declared.Refusal.TheVariants.{BeyondBank};
ghost use Rattle.banks.specs.Words.{read_answer, swap_answer, swapped, put_answer};

mod bytes;
mod joined;
mod lent;
mod words;

pub use bytes::ByteBank;
pub use joined::JoinedBank;
pub use lent::LentBank;
use panel::Refusal;
pub use words::WordBank;

// The most cells that a bank has.
const MOST_CELLS: usize = 65_535;

// A list of 16-bit words, one for each cell, of fixed length.
//
// A call about a cell is refused with `BeyondBank` exactly if the cell's number is not below the length, and changes nothing then.
pub trait Bank {
    // The words, the lowest cell's first.
    ghost words: { Self → List ℕ };

    // A proof, which each bank gives, that the cells are at most 65,535.
    ghost few: { (b : Self) → length (words b) ≤ 65535 };

    // The number of cells.
    fn size(&self) -> usize
        ensures answer { result ≡ length (words self.now) };

    // The word in a cell.
    fn read(&self, cell: usize) -> Result<u16, Refusal>
        ensures answer { result ≡ read_answer (words self.now) cell };

    // Writes `new` if the cell holds `old`, and tells whether it did. A bank whose bus does this in one step writes its own.
    fn swap(&mut self, cell: usize, old: u16, new: u16) -> Result<bool, Refusal>
        ensures answer { result ≡ swap_answer (words self.old) cell old }
        ensures after { words self.new ≡ swapped (words self.old) cell old new }
    {
        let held = self.read(cell)? == old;
        if held {
            self.put(cell, new)?;
        }
        Ok(held)
    }

    // Writes a word.
    fn put(&mut self, cell: usize, word: u16) -> Result<(), Refusal>
        ensures answer { result ≡ put_answer (words self.old) cell }
        ensures after { words self.new ≡ slice_set (words self.old) cell word };
}

// Refuses a cell whose number is not below the bank's size.
fn inside(cell: usize, size: usize) -> Result<(), Refusal>
    ensures { result ≡ cond (nat_lt cell size) (Ok tt) (Err BeyondBank) }
{
    if cell < size {
        Ok(())
    } else {
        Err(Refusal::BeyondBank)
    }
}

// Writes a word into a cell, and answers the word that the cell held.
pub fn replace<B: Bank>(bank: &mut B, cell: usize, word: u16) -> Result<u16, Refusal>
    ensures answer { result ≡ read_answer (B.Bank.words bank.old) cell }
    ensures after { B.Bank.words bank.new ≡ slice_set (B.Bank.words bank.old) cell word }
{
    let old = bank.read(cell)?;
    bank.swap(cell, old, word)?;
    Ok(old)
}
