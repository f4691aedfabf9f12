// Key kinds: what a key owes to a table, cards, codes, and the route of a hash.
#![tactic(auto)]

pub mod cards;
pub mod keypad;
pub mod kind;
pub mod routes;

pub use cards::Card;
pub use keypad::Code;
pub use kind::Key;
