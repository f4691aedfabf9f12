// The refusals of the whole product, each with the number that the panel shows.
#![tactic(auto)]

ghost use Rattle.std.specs.Prelude.{◌≡◌, ◌++◌, Some, codes, decimal};
ghost use Rattle.panel.specs.Numbers.{number, panel_text};
ghost use Rattle.panel.specs.declared.Refusal.{Refusal};

use std::fmt;

// Why a call was refused.
#[derive(Clone, Copy, Debug, PartialEq, Eq)]
pub enum Refusal {
    // A figure given to format is outside its limits.
    FigureOutOfLimits = 11,
    // Format was given less memory than the figures need.
    TooLittleMemory = 12,
    // The seat is not one of the table's.
    NoSuchSeat = 13,
    // The seat has an open call already.
    SeatTaken = 14,
    // The seat has no open call.
    SeatIdle = 15,
    // The tick or the opening number would pass its last value.
    CountersSpent = 16,
    // The bytes are not 1 to 8 proper presses.
    CodeMisread = 17,
    // A needed number lies outside the memory, a main breaks the rules, or too few places are unused.
    MemoryUnfit = 21,
    // A put would add a pair or cells beyond the table's limits.
    TableFull = 31,
    // A put meets a list that holds as many pairs as a list can.
    ListFull = 32,
    // A line has not its form.
    LineMalformed = 41,
    // A call came before an accepted format.
    NotFormatted = 42,
    // The number of a bank's cell is not below the bank's length.
    BeyondBank = 51,
}

impl Refusal {
    // The number that the panel shows; no other refusal has it. A name of its own, since `u8::from` would not say which number.
    pub fn number(self) -> u8
        ensures value { result ≡ number self }
        ensures alone { (other : Refusal) → number other ≡ result → other ≡ self }
    {
        self as u8
    }
}

impl fmt::Display for Refusal {
    ghost output = { λ x. Some (panel_text x) };

    fn fmt<W: fmt::Write>(&self, f: &mut fmt::Formatter<W>) -> fmt::Result {
        let number = self.number();
        write!(f, "refused={number}")
    }
}
