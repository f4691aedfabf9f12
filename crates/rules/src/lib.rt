// The types of a table: its memory, its seats, its calls. The rules about them are definitions, in specs/.
//
// A table's records are plain values in fixed memory, copied whole: arrays with a count and no Vec, numbers of places and no
// Box. `buried`, `pending` and the outcome are no Options: they are read only in phases that have set them, and each reader
// would need a case that never comes.
#![tactic(auto)]

ghost use Rattle.rules.specs.Memory.{Memory};
ghost use Rattle.rules.specs.PlainMap.{MapLaws};
ghost use Rattle.rules.specs.Samples.{Scripts};
ghost use Rattle.rules.specs.Sanity.{Refusals, Decides, FormatsFresh, Followed, Counted};

use keys::Key;
use mains::{Main, Node, PairList};
use panel::Refusal;

// A key with its value.
#[derive(Clone, Copy)]
pub struct Pair<K> {
    pub key: K,
    pub value: u32,
}

// What a call asks for.
#[derive(Clone, Copy)]
pub enum Ask {
    // The value of a key.
    Get,
    // To store a value under a key.
    Put(u32),
    // To take a key out.
    Cut,
}

// What a seat will do at its next turn. A plain word of its record, and no closure: a board may be pulled between any two turns.
#[derive(Clone, Copy)]
pub enum Phase {
    // No call is open.
    Idle,
    // Read the last cell of the path.
    Read,
    // Swap the last cell for what was prepared.
    Swap,
    // The cut has settled: look for a tomb in the last cell.
    Climb,
    // The last cell holds a tomb: read the cell before it.
    Parent,
    // Swap the cell before the last for what was prepared.
    Clean,
}

// The result of a call.
#[derive(Clone, Copy)]
pub enum Outcome {
    Found(u32),
    Absent,
    Stored,
    Removed(u32),
}

// A result with the number of the turn that fixed it.
#[derive(Clone, Copy)]
pub struct Stamped {
    pub outcome: Outcome,
    pub stamp: u64,
}

// A cell that a put has made, and the main that it holds.
#[derive(Clone, Copy)]
pub struct NewCell {
    pub cell: u16,
    pub main: u16,
}

// The cells from the root to the one that the seat has come to; the last one's index is `depth`.
#[derive(Clone, Copy)]
pub struct Path {
    pub cells: [u16; 8],
    pub depth: u8,
}

// A swap that is prepared.
#[derive(Clone, Copy)]
pub struct Pending {
    // The main that the swap expects to find, and the one that it will put there.
    pub expected: u16,
    pub made: u16,
    // What a put has made besides: its pair, and a chain of new cells, `links` of them.
    pub pair: u16,
    pub chain: [NewCell; 7],
    pub links: u8,
    // Whether the put adds a pair, and replaces none.
    pub adds: bool,
}

// The result of a call: settled with its stamp, or what comes out if the pending swap says yes; else it means nothing.
#[derive(Clone, Copy)]
pub struct Verdict {
    pub outcome: Outcome,
    // The number of the turn that fixed the outcome; none while the call has not settled.
    pub stamp: Option<u64>,
}

// The record of one seat.
#[derive(Clone, Copy)]
pub struct Seat {
    pub phase: Phase,
    pub ask: Ask,
    // The number that the opening answered.
    pub number: u64,
    pub path: Path,
    // The pair of the tomb that was read last.
    pub buried: u16,
    pub pending: Pending,
    pub verdict: Verdict,
}

// How large a table is.
#[derive(Clone, Copy)]
pub struct Limits {
    pub seats: u8,
    pub cells: u16,
    pub pairs: u16,
}

// What the boards share besides the memory.
#[derive(Clone, Copy)]
pub struct Table {
    pub seats: [Seat; 8],
    pub limits: Limits,
    pub ticks: u64,
    pub openings: u64,
}

// What the one read or swap of a turn gave.
#[derive(Clone, Copy)]
pub enum Seen {
    Saw(u16, Main),
    Swapped(bool),
}

// How a main is replaced, but for the places that will be taken.
#[derive(Clone, Copy)]
pub enum Edit {
    // A main that needs no new pair.
    Fixed(Main),
    // The new pair at a chunk that has nothing.
    Insert(Node, u32),
    // The new pair in place of one of an equal key.
    Replace(Node, u32),
    // The new pair at the end of a list.
    Append(PairList),
    // The new pair in place of one of an equal key in a list.
    Relist(PairList, usize),
    // A chain of new cells at a chunk, down to where the new pair parts from the pair that stands there.
    Split(Fork),
}

// Where a pair gives way to a chain of cells.
#[derive(Clone, Copy)]
pub struct Fork {
    // The node, its index, the chunk, and the pair that stands there.
    pub node: Node,
    pub index: u32,
    pub chunk: u32,
    pub pair: u16,
    // The hash of that pair's key, and of the new key.
    pub standing: u32,
    pub coming: u32,
}

// What follows from what a turn saw.
#[derive(Clone, Copy)]
pub enum Plan {
    // The turn is refused, and nothing alters.
    Refuse(Refusal),
    // The call is refused: the tick counts and the seat is freed.
    Quit(Refusal),
    // The call settles and finishes.
    Finish(Outcome),
    // The cut settles and climbs.
    Settle(Outcome),
    // The call, settled before, finishes.
    Close,
    // The seat goes on with this record; nothing is written.
    Go(Seat),
    // The edit is prepared in place of the main that was read; the phase swaps it in, and what comes out then.
    Make {
        edit: Edit,
        phase: Phase,
        expected: u16,
        outcome: Outcome,
    },
}

// What a count answers.
#[derive(Clone, Copy)]
pub struct Tally {
    pub pairs: u64,
    pub cells: u64,
    pub tombs: u64,
    pub open: u64,
    pub ticks: u64,
}

// The figures that format is given.
#[derive(Clone, Copy)]
pub struct Figures {
    pub seats: u64,
    pub cells: u64,
    pub pairs: u64,
    pub ticks: u64,
}

// A call on a table.
#[derive(Clone, Copy)]
pub enum Call<K> {
    Open { seat: usize, ask: Ask, key: K },
    Turn { seat: usize },
    Withdraw { seat: usize },
    Count,
}

// What a call answered.
#[derive(Clone, Copy)]
pub enum Reply {
    Opened(Result<u64, Refusal>),
    // Nothing while the call goes on, result and stamp when it finished.
    Turned(Result<Option<Stamped>, Refusal>),
    // Result and stamp if the call had settled, nothing if it is undone.
    Withdrew(Result<Option<Stamped>, Refusal>),
    Counted(Tally),
}

// The worked scripts give their answers, computed on the rules.
pub fn scripts_compute()
    ensures { Scripts }
{}

// The rules have the laws that they must have if they say what they should, for every key kind.
pub fn laws_stand<K: Key>()
    ensures map { MapLaws K.eq }
    ensures refusals { Refusals K.eq K.hash }
    ensures decides { Decides K.eq K.hash }
    ensures formats { FormatsFresh K.eq K.hash }
    ensures followed { (m : Memory K) → Followed K.eq K.hash m }
    ensures counted { (m : Memory K) → Counted K.eq K.hash m }
{}
