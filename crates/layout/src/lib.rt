// The index as it stands in the arena: held terms, the blocks of their chains, and that reading gives back what was
// written. Theorems only.
#![tactic(auto)]

ghost use Rattle.layout.specs.Claims.{ReadsBack};

// What is written is read back, as a contract, so that the gate fails without it.
pub fn chains_read_back()
    ensures { ReadsBack }
{}
