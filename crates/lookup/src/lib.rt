// Finding a term in the table: from the slot of its hash, one slot on and wrapping.
#![tactic(auto)]

ghost use Rattle.std.specs.Prelude.{◌≡◌, ◌+◌, ◌≤◌, ◌<◌, length};
ghost use Rattle.basics.specs.Lists.{same};
ghost use Rattle.terms.specs.Terms.{max_term, folded};
ghost use Rattle.blocks.specs.Fields.{max_word, block_size, place, name_of};
ghost use Rattle.lookup.specs.Lookup.{slots, search, enter, first_entry, length_behind, Entries, Lengths};

use blocks::Used;
use refusals::Refusal;
use terms::{Folded, Name};

// What a search finds: the head's block, or the empty slot where the term would go.
#[derive(Clone, Copy)]
pub enum Found {
    At(u32),
    Unknown(u32),
}

// How many entries of the table are slots.
#[tactic(auto, unfolding(crate::specs::Lookup::slots))]
pub fn slots_of(table: &[u32]) -> u32
    ensures { result ≡ slots table.now }
{
    basics::saturated(table.len())
}

// Whether block b, read as a head, holds the folded term.
#[tactic(auto, using(crate::proofs::Names::naming))]
fn holds_name(arena: &[u8], b: u32, name: Name) -> bool
    requires { place b + block_size ≤ length arena.now }
    ensures { result ≡ same (name_of arena.now b) name.entry.bytes.now }
{
    let n = name.bytes.len();
    usize::from(blocks::term_length(arena, b)) == n
        && basics::same_bytes(blocks::name_part(arena, b, n), name.bytes)
}

// The search for a folded term: from the slot of its hash, one slot on and wrapping, to a match or an empty slot.
// Refused as damaged where a slot leads to no used block, or all slots are filled and none is a match.
#[tactic(auto, using(crate::proofs::Search::searching))]
pub fn find(used: Used, table: &[u32], name: Name) -> Result<Found, Refusal>
    ensures { result ≡ search used.entry.arena.now used.entry.blocks table.now name.entry.bytes.now }
{
    let t = slots_of(table);
    if t == 0 {
        return Ok(Found::Unknown(0));
    }
    let start = name.hash % t;
    for slot in (start..t).chain(0..start) {
        let Some(b) = table[slot as usize].checked_sub(1) else {
            return Ok(Found::Unknown(slot));
        };
        if used.blocks <= b {
            return Err(Refusal::Damaged);
        }
        if holds_name(used.arena, b, name) {
            return Ok(Found::At(b));
        }
    }
    Err(Refusal::Damaged)
}

// The same for a term that is not folded yet.
pub fn find_term(used: Used, table: &[u32], term: &[u8]) -> Result<Found, Refusal>
    requires { length term.now ≤ max_term }
    ensures { result ≡ search used.entry.arena.now used.entry.blocks table.now (folded term.now) }
{
    let folded = Folded::new(term);
    find(used, table, folded.name())
}

// The entry of the slot where the search for a hash begins, in a table of t slots.
#[tactic(auto, using(crate::proofs::Search::starting))]
fn first_entry(table: &[u32], t: u32, hash: u32) -> u32
    requires { t ≡ slots table.now }
    ensures { result ≡ first_entry table.now hash }
{
    if t == 0 {
        0
    } else {
        table[(hash % t) as usize]
    }
}

// The entries where the searches for several hashes begin, all asked for before any of them is compared, so that slow
// reads overlap.
pub fn first_entries(table: &[u32], hashes: &[u32], entries: &mut [u32])
    requires { length hashes.now ≤ length entries.old }
    ensures { Entries table.now hashes.now entries.new }
{
    let t = slots_of(table);
    basics::map_into(hashes, entries, |hash| first_entry(table, t, hash));
}

// The length of the term in the head that an entry leads to.
#[tactic(auto, using(std::proofs::lemmas::Bool::Decides::nat_tests, blocks::proofs::Sizes::block_unit), unfolding(crate::specs::Lookup::length_behind))]
fn length_behind(used: Used, e: u32) -> u8
    ensures { result ≡ length_behind used.entry.arena.now used.entry.blocks e }
{
    if e == 0 || used.blocks < e {
        return 0;
    }
    blocks::term_length(used.arena, e - 1)
}

// The lengths behind several entries, asked for together in the same way.
pub fn first_lengths(used: Used, entries: &[u32], lengths: &mut [u8])
    requires { length entries.now ≤ length lengths.old }
    ensures { Lengths used.entry.arena.now used.entry.blocks entries.now lengths.new }
{
    basics::map_into(entries, lengths, |entry| length_behind(used, entry));
}

// The search for a folded term whose first entry, and the length behind it, are known.
#[tactic(auto, using(std::proofs::lemmas::Bool::Decides::nat_tests, blocks::proofs::Sizes::block_unit), unfolding(crate::specs::Lookup::length_behind))]
pub fn find_from(
    used: Used,
    table: &[u32],
    name: Name,
    entry: u32,
    stored: u8,
) -> Result<Found, Refusal>
    requires { (0 < length name.bytes.now) × (entry ≡ first_entry table.now name.hash)
        × (stored ≡ length_behind used.arena.now used.blocks entry) }
    ensures { result ≡ search used.entry.arena.now used.entry.blocks table.now name.entry.bytes.now }
{
    let n = name.bytes.len();
    if usize::from(stored) == n {
        if basics::same_bytes(blocks::name_part(used.arena, entry - 1, n), name.bytes) {
            return Ok(Found::At(entry - 1));
        }
    }
    find(used, table, name)
}

// Puts a new term's head into the empty slot met.
#[tactic(auto, unfolding(crate::specs::Lookup::enter))]
pub fn enter_at(table: &mut [u32], slot: u32, b: u32)
    requires { (slot < length table.old) × (b < max_word) }
    ensures { table.new ≡ enter table.old slot b }
{
    table[slot as usize] = b + 1;
}
