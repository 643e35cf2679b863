// The plain ledger (document 01, "The plain ledger of demand 3"), and that index and ledger agree. Theorems only.
#![tactic(auto)]

ghost use Rattle.ledger.specs.Calls.{Claim};
ghost use Rattle.ledger.specs.Example.{Example};
ghost use Rattle.ledger.specs.Refusing.{Refuses};
ghost use Rattle.ledger.specs.Room.{NoRoom};
ghost use Rattle.ledger.specs.State.{SameState, TableTold};
ghost use Rattle.ledger.specs.Strength.{Strength};

// The claims, each as a contract, so that the gate fails without it.

// Demand 1: a refusal is the first of the call's rows that holds, and it changes nothing; 13 leaves what the lines
// before left.
#[tactic(auto, using(crate::proofs::Refusing::refuses))]
pub fn refuses_rightly()
    ensures { Refuses }
{}

// Demand 3: over every list of calls after a first start, index and ledger share every answer, list, refusal and count.
pub fn ledger_agrees()
    ensures { Claim }
{}

// What demand 3 shuts out: six wrong indexes.
#[tactic(auto, using(crate::proofs::Strength::shuts_out))]
pub fn strength_holds()
    ensures { Strength }
{}

// The ledger alone answers document 01's desk example as document 01 prints it.
#[tactic(auto, using(crate::proofs::Example::example_printed))]
pub fn example_holds()
    ensures { Example }
{}

// The consequence for refusal 12: a report that no earlier rule refuses meets it exactly when the prescribed blocks
// outnumber the arena's.
#[tactic(auto, using(crate::proofs::Room::no_room))]
pub fn no_room()
    ensures { NoRoom }
{}

// Equal ledgers have equal memories: counters, table and used blocks, byte for byte. The table is told by the terms.
pub fn same_state()
    ensures same { SameState }
    ensures table { TableTold }
{}
