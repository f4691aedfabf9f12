// What holds of every history of a table, whatever its schedule, its memory and the unused places taken. The statements are
// about the definitions of the rules.
#![tactic(auto)]

ghost use Rattle.rules.specs.Memory.{Memory};
ghost use Rattle.rules.specs.Theorem.{LogTheorem};
ghost use Rattle.theory.specs.Claims.{CallTheorem, FormatTheorem};
ghost use Rattle.theory.specs.Fed.{FeedTheorem};
ghost use Rattle.theory.specs.Orders.{OrderTheorem};
ghost use Rattle.theory.specs.Places.{RoomSuffices, Tells};
ghost use Rattle.theory.specs.Reaching.{ShowsReach};
ghost use Rattle.theory.specs.Records.{SteadyTheorem};
ghost use Rattle.theory.specs.Shown.{ShowsEdits, ShowsMemory};

use keys::Key;

// The log theorem, for every key kind: of every history; and call by call, in the shape that the calls of a table cite.
pub fn log_stands<K: Key>()
    ensures histories { LogTheorem K.eq K.hash }
    ensures calls { CallTheorem K.eq K.hash }
    ensures formats { FormatTheorem K.eq K.hash }
{}

// The stamped calls of a history have an order: the theorem, for every key kind.
pub fn stamps_order<K: Key>()
    ensures { OrderTheorem K.eq K.hash }
{}

// While the places in use leave enough, whatever a turn takes suffices.
pub fn room_suffices<K: Key>()
    ensures { RoomSuffices K.eq K.hash }
{}

// A count tells the number of what is reached, however that is listed.
pub fn counts_tell<K: Key>()
    ensures { (m : Memory K) → Tells K.eq K.hash m }
{}

// After every history the table keeps its figures, its memory their need, and each seat the rules of its record.
pub fn records_steady<K: Key>()
    ensures { SteadyTheorem K.eq K.hash }
{}

// The plain map of the rules and the log of the machine say the same, for every key kind.
pub fn maps_agree<K: Key>()
    ensures { FeedTheorem K.eq K.hash }
{}

// The edits of nodes and lists show as those of the machine's mains.
pub fn edits_show()
    ensures { ShowsEdits }
{}

// The memory shows as the machine's, place by place.
pub fn memory_shows<K: Key>()
    ensures { ShowsMemory K }
{}

// A hash leads to the same cells by the rules and in the memory shown, where that is intact.
pub fn reach_shows<K: Key>()
    ensures { (m : Memory K) → ShowsReach K.eq K.hash m }
{}
