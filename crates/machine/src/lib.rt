// The machine of the table, without its code: what its memory and its seats may do, turn by turn, and what comes of it.
#![tactic(auto)]

ghost use Rattle.machine.specs.AtRest.{AlwaysOwned, AlwaysRuled, AtRest, LogStands, ReachedAlong};
ghost use Rattle.machine.specs.Claim.{Claim};
ghost use Rattle.machine.specs.Pairs.{PairClaim};

use keys::Key;

// The log of every run is that of a plain map; so it is with the pairs in place of their values.
pub fn machine_stands<K: Key>()
    ensures values { Claim K.eq K.hash }
    ensures pairs { PairClaim K.eq K.hash }
{}

// So it is with the exact turns, and then every reached main keeps the rules. With none withdrawn, each reached tomb has an owner;
// with no call open besides, no tomb is reached and the tree is compact.
pub fn rest_stands<K: Key>()
    ensures log { LogStands K.eq K.hash }
    ensures ruled { AlwaysRuled K.eq K.hash }
    ensures owned { AlwaysOwned K.eq K.hash }
    ensures rest { AtRest K.eq K.hash }
    ensures reached { ReachedAlong K }
{}
