// The counters of an index. Inside the library they travel by value.
#![tactic(auto)]

ghost use Rattle.std.specs.Prelude.{◌≡◌};
ghost use Rattle.counters.specs.Counters.{max_terms, wrong_counters};

mod lent;

pub use lent::Lent;

// Blocks used, terms held, reports held.
#[repr(C)]
#[derive(Clone, Copy, Default)]
pub struct Counters {
    pub used: u32,
    pub terms: u32,
    pub reports: u32,
}

// How many terms a table may hold.
#[tactic(auto, unfolding(crate::specs::Counters::max_terms))]
pub fn max_terms(table: &[u32]) -> u32
    ensures { result ≡ max_terms table.now }
{
    lookup::slots_of(table) / 2
}

// Refusal 8.
#[tactic(auto, using(std::proofs::lemmas::Bool::Decides::nat_tests), unfolding(crate::specs::Counters::wrong_counters))]
pub fn are_wrong(arena: &[u8], table: &[u32], k: Counters) -> bool
    ensures { result ≡ wrong_counters arena.now table.now k }
{
    blocks::capacity_of(arena) < k.used || max_terms(table) < k.terms || k.used < k.terms
}
