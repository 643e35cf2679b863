// Memory whose counters are right.

ghost use Rattle.std.specs.Prelude.{◌≡◌, ℕ, ◌<◌, IfOk, cond, false, get_or};
ghost use Rattle.counters.specs.Counters.{memory, wrong_counters};
ghost use Rattle.refusals.specs.Numbers.{refused_under};

use crate::{Counters, are_wrong};
use blocks::Used;
use refusals::Refusal;

// What a call that writes nothing is lent, once refusal 8 is past. What a slice knows of its bytes is not known of a
// field, so it is said.
#[derive(Clone, Copy)]
pub struct Lent<'a> {
    pub arena: &'a [u8],
    pub table: &'a [u32],
    pub counters: Counters,
    ghost fits: { (i : ℕ) → get_or arena.now i 0 < 256 },
    ghost right: { wrong_counters arena.now table.now counters ≡ false },
}

impl<'a> Lent<'a> {
    pub fn new(arena: &'a [u8], table: &'a [u32], counters: Counters) -> Result<Self, Refusal>
        ensures refused { refused_under result ≡ cond (wrong_counters arena.entry.now table.entry.now counters) 8 0 }
        ensures lent { IfOk result (λ l. memory l.arena.now l.table.now l.counters ≡ memory arena.entry.now table.entry.now counters) }
    {
        if are_wrong(arena, table, counters) {
            return Err(Refusal::WrongCounters);
        }
        Ok(Lent {
            arena,
            table,
            counters,
        })
    }

    // The blocks in use.
    pub fn used(self) -> Used<'a>
        ensures { (result.arena.now ≡ self.entry.arena.now) × (result.blocks ≡ self.entry.counters.used) }
    {
        Used {
            arena: self.arena,
            blocks: self.counters.used,
        }
    }
}
