// Branch nodes: what stands at a chunk, and the node after an edit. An edit copies the node where it changes it, and returns
// there: handed on behind the `if`, the row would be copied more often.
ghost use Rattle.std.specs.Prelude.{◌≡◌, ◌^◌, ◌<◌, ◌≤◌, true, ◌≢◌};
ghost use Rattle.mains.specs.Bits.{has, position, flag};
ghost use Rattle.mains.specs.Nodes.{is_free, branch_at, inserted, replaced, removed, empty_node, of_one, of_two, size, lone};
ghost use Rattle.mains.specs.Laws.{WellFormed, Stands, Alone, Both, Inserts, Replaces, Removes, Lone, nothing};
ghost use Rattle.mains.specs.declared.Branch.TheVariants.{Pair, Cell};

use crate::rows::{put_in, take_out};
use crate::{Branch, Node};

// How many chunks there are. A chunk is any number in these calls: a type of its own would ask more of callers.
const CHUNKS: u32 = 32;

// The bit of a chunk in a bitmap; none past the last chunk.
fn flag(chunk: u32) -> u32
    ensures { result ≡ flag chunk }
{
    if chunk < CHUNKS { 1 << chunk } else { 0 }
}

#[tactic(auto, using(crate::proofs::Contracts::of_nodes))]
impl Node {
    // The node without branches.
    pub fn empty() -> Node
        ensures value { result ≡ empty_node }
        ensures stands { Stands result nothing }
        ensures formed { WellFormed result }
    {
        Node {
            bitmap: 0,
            branches: [Branch::Pair(0); 32],
        }
    }

    // Whether a chunk has a branch.
    pub fn has(&self, chunk: u32) -> bool
        ensures value { result ≡ has self.now.bitmap chunk }
        ensures low { result ≡ true → chunk < 32 }
    {
        self.bitmap & flag(chunk) != 0
    }

    // Whether a branch can be inserted at a chunk: there is such a chunk, and it has no branch.
    pub fn is_free(&self, chunk: u32) -> bool
        ensures value { result ≡ is_free self.now chunk }
    {
        chunk < CHUNKS && !self.has(chunk)
    }

    // How many branches there are. `fits` hands on what the type says of the bitmap to callers that do not read it.
    pub fn size(&self) -> u32
        ensures value { result ≡ size self.now }
        ensures fits { self.now.bitmap < 2 ^ 32 }
    {
        self.bitmap.count_ones()
    }

    // How many lower chunks have a branch: the place of a chunk's own branch.
    pub fn position(&self, chunk: u32) -> u32
        ensures value { result ≡ position self.now.bitmap chunk }
        ensures low { result ≤ chunk }
    {
        if chunk < CHUNKS {
            (self.bitmap & (flag(chunk) - 1)).count_ones()
        } else {
            self.size()
        }
    }

    // The branch at a chunk, if it has one.
    pub fn at(&self, chunk: u32) -> Option<Branch>
        ensures { result ≡ branch_at self.now chunk }
    {
        self.has(chunk)
            .then(|| self.branches[self.position(chunk) as usize])
    }

    // The node with a branch at a chunk that has none; any other chunk changes nothing.
    pub fn inserted(self, chunk: u32, branch: Branch) -> Node
        ensures value { result ≡ inserted self chunk branch }
        ensures law { Inserts self chunk branch result }
    {
        if self.is_free(chunk) {
            let place = self.position(chunk) as usize;
            let mut node = self;
            put_in(&mut node.branches, place, branch);
            node.bitmap |= flag(chunk);
            return node;
        }
        self
    }

    // The node with another branch at a chunk that has one; any other chunk changes nothing.
    pub fn replaced(self, chunk: u32, branch: Branch) -> Node
        ensures value { result ≡ replaced self chunk branch }
        ensures law { Replaces self chunk branch result }
    {
        if self.has(chunk) {
            let place = self.position(chunk) as usize;
            let mut node = self;
            node.branches[place] = branch;
            return node;
        }
        self
    }

    // The node without the branch at a chunk; a chunk that has none changes nothing.
    pub fn removed(self, chunk: u32) -> Node
        ensures value { result ≡ removed self chunk }
        ensures law { Removes self chunk result }
    {
        if self.has(chunk) {
            let place = self.position(chunk) as usize;
            let mut node = self;
            take_out(&mut node.branches, place, Branch::Pair(0));
            node.bitmap ^= flag(chunk);
            return node;
        }
        self
    }

    // The node whose one branch is a cell.
    pub fn of_cell(chunk: u32, cell: u16) -> Node
        ensures value { result ≡ of_one chunk (Cell cell) }
        ensures stands { chunk < 32 → Alone result chunk (Cell cell) }
        ensures formed { WellFormed result }
    {
        Node::empty().inserted(chunk, Branch::Cell(cell))
    }

    // The node whose two branches, at different chunks, are pairs.
    pub fn of_pairs(chunk: u32, pair: u16, other_chunk: u32, other: u16) -> Node
        ensures value { result ≡ of_two chunk (Pair pair) other_chunk (Pair other) }
        ensures stands { chunk < 32 → other_chunk < 32 → chunk ≢ other_chunk → Both result chunk (Pair pair) other_chunk (Pair other) }
        ensures formed { WellFormed result }
    {
        Node::empty()
            .inserted(chunk, Branch::Pair(pair))
            .inserted(other_chunk, Branch::Pair(other))
    }

    // The only branch, if there is exactly one.
    pub fn lone(&self) -> Option<Branch>
        ensures value { result ≡ lone self.now }
        ensures sole { Lone self.now result }
    {
        (self.size() == 1).then_some(self.branches[0])
    }
}
