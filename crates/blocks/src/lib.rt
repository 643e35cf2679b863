// Blocks of the arena (document 01, "Blocks"): the fields of a head, opening a head for a new term, adding a posting,
// opening the next block. Sizes and offsets stand in this crate alone; others ask for them.
//
//     head    0       4       8       12        16   17   18        18 + n                     64
//             | link  | tail  | last  | postings | end | n  | term ...| postings ...  ... nulls |
//
//     other   0       4                                                                        64
//             | link  | postings ...                                                  ... nulls |
//
//     OFFSET  SIZE  WHAT
//     0       4     the next block's number; in the tail, the number of the block's first report
//     4       4     head: the number of the tail block
//     8       4     head: the last report of the chain
//     12      4     head: how many postings the chain has
//     16      1     head: the write offset in the tail, at most 64
//     17      1     head: the length n of the term
//     18      n     head: the folded term
//     then          postings, up to the write offset in the tail, elsewhere to a null byte or the block's end
#![tactic(auto, unfolding(crate::specs::Fields::block_size, crate::specs::Fields::head_fixed, crate::specs::Fields::link_size))]

ghost use Rattle.std.specs.Prelude.{◌≡◌, true, [], ◌+◌, ◌-◌, ◌*◌, ◌≤◌, ◌<◌, length};
ghost use Rattle.std.proofs.lemmas.List.Edits.{sets};
ghost use Rattle.postings.specs.Coding.{code};
ghost use Rattle.terms.specs.Terms.{max_term};
ghost use Rattle.blocks.specs.Fields.{
  block_size,
  link_size,
  capacity,
  place,
  link_of,
  head_of,
  term_length,
  name_part,
  part_start,
  part_of,
};
ghost use Rattle.blocks.specs.Marked.{marked_right};
ghost use Rattle.blocks.specs.Writes.{padded, growing, changing, open_head, fits, add_to, join_to, append, Appends};

mod used;

use postings::{BGap, DGap};
pub use used::Used;

// The bytes that are counted as one, and those of a block.
const UNIT: usize = 64;

const BLOCK: usize = 64;

// The bytes of a head before its term, and of any other block before its postings.
const FIXED: usize = 18;

const LINK: usize = 4;

// The fields of a head but its link and its term.
#[derive(Clone, Copy)]
pub struct Head {
    pub tail: u32,
    pub last: u32,
    pub postings: u32,
    pub end: usize,
    pub length: usize,
}

// The bytes of a block.
#[tactic(auto, unfolding(crate::specs::Fields::block_size))]
pub fn block_size() -> usize
    ensures { result ≡ block_size }
{
    BLOCK
}

// The bytes of a block but a head before its postings.
#[tactic(auto, unfolding(crate::specs::Fields::link_size))]
pub fn link_size() -> usize
    ensures { result ≡ link_size }
{
    LINK
}

// How many blocks an arena holds.
#[tactic(auto, unfolding(crate::specs::Fields::capacity))]
pub fn capacity_of(arena: &[u8]) -> u32
    ensures { result ≡ capacity arena.now }
{
    basics::saturated(arena.len() / UNIT)
}

// Where a block stands in the arena.
pub fn place_of(b: u32) -> usize
    ensures { result ≡ place b }
{
    UNIT * (b as usize)
}

// The next block's number; in the tail, the block's first report number.
#[tactic(auto, unfolding(crate::specs::Fields::block_size, crate::specs::Fields::link_of))]
pub fn link_of(arena: &[u8], b: u32) -> u32
    requires { place b + block_size ≤ length arena.now }
    ensures { result ≡ link_of arena.now b }
{
    basics::read_word(arena, place_of(b))
}

#[tactic(auto, unfolding(crate::specs::Fields::block_size, crate::specs::Fields::head_of))]
pub fn head_of(arena: &[u8], h: u32) -> Head
    requires { place h + block_size ≤ length arena.now }
    ensures { result ≡ head_of arena.now h }
{
    let at = place_of(h);
    Head {
        tail: basics::read_word(arena, at + 4),
        last: basics::read_word(arena, at + 8),
        postings: basics::read_word(arena, at + 12),
        end: usize::from(arena[at + 16]),
        length: usize::from(arena[at + 17]),
    }
}

// The length of a head's term.
#[tactic(auto, unfolding(crate::specs::Fields::block_size, crate::specs::Fields::term_length))]
pub fn term_length(arena: &[u8], h: u32) -> u8
    requires { place h + block_size ≤ length arena.now }
    ensures { result ≡ term_length arena.now h }
{
    arena[place_of(h) + 17]
}

// The bytes of a head where a term of length n stands.
#[tactic(auto, unfolding(crate::specs::Fields::block_size, crate::specs::Fields::head_fixed, crate::specs::Fields::name_part))]
pub fn name_part<'a>(arena: &'a [u8], h: u32, n: usize) -> &'a [u8]
    requires { (n ≤ max_term) × (place h + block_size ≤ length arena.now) }
    ensures is { result.now ≡ name_part arena.now h n }
    ensures length { length result.now ≡ n }
{
    let at = place_of(h) + FIXED;
    &arena[at..at + n]
}

// The bytes of block b from an offset up to another.
#[tactic(auto, unfolding(crate::specs::Fields::part_of))]
pub fn part_of<'a>(arena: &'a [u8], b: u32, from: usize, to: usize) -> &'a [u8]
    requires { (from ≤ to) × (to ≤ block_size) × (place b + block_size ≤ length arena.now) }
    ensures is { result.now ≡ part_of arena.now b from to }
    ensures length { length result.now ≡ to - from }
{
    let at = place_of(b);
    &arena[at + from..at + to]
}

// Where the postings of block b begin in the chain of head h.
#[tactic(auto, unfolding(crate::specs::Fields::head_fixed, crate::specs::Fields::link_size, crate::specs::Fields::part_start))]
pub fn part_start(d: Head, h: u32, b: u32) -> usize
    requires { d.length < 256 }
    ensures { result ≡ part_start d h b }
{
    if b == h { FIXED + d.length } else { LINK }
}

// ---- writing

// Writes nulls into a block.
#[tactic(auto, using(basics::proofs::Stores::put_mid_sets), unfolding(crate::specs::Fields::block_size, crate::specs::Writes::padded))]
fn clear(arena: &mut [u8], b: u32)
    requires { place b + block_size ≤ length arena.old }
    ensures { arena.new ≡ sets arena.old (place b) (padded []) }
{
    let from = place_of(b);
    arena[from..from + BLOCK].fill(0);
}

// Writes the fields of a head that every posting changes.
fn put_growing(arena: &mut [u8], h: u32, d: Head)
    requires { (place h + block_size ≤ length arena.old) × (d.end < 256) }
    ensures { arena.new ≡ sets arena.old (place h + 8) (growing d.last d.postings d.end) }
{
    let at = place_of(h);
    basics::write_word(arena, at + 8, d.last);
    basics::write_word(arena, at + 12, d.postings);
    arena[at + 16] = d.end as u8;
}

// The same with the tail, which a posting in a new block changes too.
fn put_changing(arena: &mut [u8], h: u32, d: Head)
    requires { (place h + block_size ≤ length arena.old) × (d.end < 256) }
    ensures { arena.new ≡ sets arena.old (place h + 4) (changing d.tail d.last d.postings d.end) }
{
    basics::write_word(arena, place_of(h) + 4, d.tail);
    put_growing(arena, h, d);
}

// Writes a posting at an offset of block b, and returns the offset past it.
fn put_at(arena: &mut [u8], b: u32, offset: usize, gap: u32, count: u32) -> usize
    requires { (0 < gap) × (offset + length (code gap count) ≤ block_size) × (place b + block_size ≤ length arena.old) }
    ensures { (result ≡ offset + length (code gap count)) × (arena.new ≡ sets arena.old (place b + offset) (code gap count)) }
{
    let at = place_of(b);
    postings::put_posting(arena, at + offset, gap, count) - at
}

// Writes the first posting of a block, whose postings begin at `start`: it takes a b-gap.
fn put_first(arena: &mut [u8], b: u32, start: usize, gap: BGap, count: u32) -> usize
    requires { (0 < gap.0) × (start + length (code gap.0 count) ≤ block_size) × (place b + block_size ≤ length arena.old) }
    ensures { (result ≡ start + length (code gap.0 count)) × (arena.new ≡ sets arena.old (place b + start) (code gap.0 count)) }
{
    put_at(arena, b, start, gap.0, count)
}

// Writes a posting behind others, at the write offset: it takes a d-gap.
fn put_next(arena: &mut [u8], b: u32, end: usize, gap: DGap, count: u32) -> usize
    requires { (0 < gap.0) × (end + length (code gap.0 count) ≤ block_size) × (place b + block_size ≤ length arena.old) }
    ensures { (result ≡ end + length (code gap.0 count)) × (arena.new ≡ sets arena.old (place b + end) (code gap.0 count)) }
{
    put_at(arena, b, end, gap.0, count)
}

// A new term: its head at block b, with its first posting. A head's first gap counts from 0.
pub fn open_head(arena: &mut [u8], b: u32, name: &[u8], number: u32, count: u32)
    requires { (length name.now ≤ max_term) × (0 < number) × (place b + block_size ≤ length arena.old) }
    ensures { arena.new ≡ open_head arena.old b name.now number count }
{
    let at = place_of(b);
    let length = name.len();
    clear(arena, b);
    basics::write_word(arena, at, number);
    arena[at + 17] = length as u8;
    basics::write_bytes(arena, at + FIXED, name);
    let end = put_first(arena, b, FIXED + length, BGap::between(0, number), count);
    let d = Head {
        tail: b,
        last: number,
        postings: 1,
        end,
        length,
    };
    put_changing(arena, b, d);
}

// Whether a posting fits into the tail with its d-gap. The length of its code matters only near the block's end.
#[tactic(auto, using(crate::proofs::Writes::fitting), unfolding(crate::specs::Fields::block_size, crate::specs::Writes::fits))]
pub fn fits_in(d: Head, number: u32, count: u32) -> bool
    requires { (d.last < number) × (d.end ≤ block_size) }
    ensures { result ≡ fits d number count }
{
    let gap = DGap::between(d.last, number);
    d.end + postings::MAX_CODE <= BLOCK || d.end + postings::posting_length(gap.0, count) <= BLOCK
}

// A posting at the write offset of the tail. The tail stays, so that field of the head is not written again.
pub fn add_to(arena: &mut [u8], h: u32, d: Head, number: u32, count: u32)
    requires { Appends arena.old h d number × (fits d number count ≡ true) }
    ensures { arena.new ≡ add_to arena.old h d number count }
{
    let end = put_next(arena, d.tail, d.end, DGap::between(d.last, number), count);
    let grown = Head {
        last: number,
        postings: d.postings + 1,
        end,
        ..d
    };
    put_growing(arena, h, grown);
}

// Block b as the new tail: the old tail leads to it, and its first posting counts from the old tail's first number.
pub fn join_to(arena: &mut [u8], h: u32, d: Head, b: u32, number: u32, count: u32)
    requires { Appends arena.old h d number × (place b + block_size ≤ length arena.old) × (link_of arena.old d.tail < number) }
    ensures { arena.new ≡ join_to arena.old h d b number count }
{
    let gap = BGap::between(link_of(arena, d.tail), number);
    basics::write_word(arena, place_of(d.tail), b);
    clear(arena, b);
    basics::write_word(arena, place_of(b), number);
    let end = put_first(arena, b, LINK, gap, count);
    let grown = Head {
        tail: b,
        last: number,
        postings: d.postings + 1,
        end,
        ..d
    };
    put_changing(arena, h, grown);
}

// One more posting of the term with head h: in its tail, or in block b where it does not fit. Says whether it fitted.
pub fn append_posting(arena: &mut [u8], h: u32, b: u32, number: u32, count: u32) -> bool
    requires { Appends arena.old h (head_of arena.old h) number × (place b + block_size ≤ length arena.old) × (link_of arena.old (head_of arena.old h).tail < number) }
    ensures { (result ≡ fits (head_of arena.old h) number count) × (arena.new ≡ append arena.old h b number count) }
{
    let d = head_of(arena, h);
    let fitted = fits_in(d, number, count);
    if fitted {
        add_to(arena, h, d, number, count);
    } else {
        join_to(arena, h, d, b, number, count);
    }
    fitted
}

// The twelve marked cases of document 01 hold under the definitions.
#[tactic(auto, using(crate::proofs::Marked::marked_cases_right))]
pub fn marked_cases_hold()
    ensures { marked_right ≡ true }
{}
