// Mains: what a cell of a hash trie holds, and the edits of branch nodes and of lists.
#![tactic(auto)]

mod lists;
mod nodes;
mod rows;

// What stands at a chunk of a branch node: a pair or a cell, by its number, and no Box: the memory is fixed, and all boards
// share it.
#[derive(Clone, Copy)]
pub enum Branch {
    Pair(u16),
    Cell(u16),
}

// A branch node: which of the chunks 0 to 31 have a branch, and their branches, packed in chunk order.
// An array and no Vec, since the memory is fixed. No invariant: that a node is well formed (specs/Laws) says only what its
// fields' types say, and each node of a definition would have to carry a proof of it.
#[derive(Clone, Copy)]
pub struct Node {
    pub bitmap: u32,
    pub branches: [Branch; 32],
}

// Up to 32 pairs, in order, by their numbers; those past `count` mean nothing. An array and no Vec, since the memory is
// fixed. No invariant: memory may hold a count past 32, and has to be answered.
#[derive(Clone, Copy)]
pub struct PairList {
    pub count: u8,
    pub pairs: [u16; 32],
}

// What a cell holds: a branch node, a tomb of one pair by its number, or a list of pairs.
#[derive(Clone, Copy)]
pub enum Main {
    Node(Node),
    Tomb(u16),
    List(PairList),
}
