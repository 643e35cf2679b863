// Chains of blocks (document 01, "Blocks"): a cursor that gives one posting after another, and reading a whole chain
// for damage.
#![tactic(auto, using(blocks::proofs::Sizes::bounds))]

ghost use Rattle.std.specs.Prelude.{◌≡◌, cond, false, IfSome, ◌&&◌, ℕ, ◌+◌, ◌-◌, ◌≤◌, ◌<◌, ltb, eqb, length};
ghost use Rattle.postings.specs.Coding.{counted, decoded};
ghost use Rattle.sums.specs.Adding.{Bounded};
ghost use Rattle.blocks.specs.Fields.{max_word, block_size, link_size, place, link_of, head_of};
ghost use Rattle.chains.specs.Chains.{part_end, part_at, exhausted, past, past_last, read_at, entered_at, next_block, step_at, step_from, at_head, bad_head, chain_of, is_whole, linked, Follows};
ghost use Rattle.chains.specs.Parts.{passed, moved_to, passed_to, InPart, Known, part_read};

mod part;

use blocks::{Head, Used};
pub use part::{Part, Posting};
use postings::{DGap, Decoded};
use refusals::Refusal;
use sums::Sum;

// A place in a chain: the block and the offset in it, the last number read, the block's first number (0 before its
// first posting), how many more blocks there can be; and from the head, the tail block and the write offset there.
#[derive(Clone, Copy, Default)]
pub struct Cursor {
    pub tail: u32,
    pub end: usize,
    pub block: u32,
    pub at: usize,
    pub number: u32,
    pub first: u32,
    pub left: u32,
}

// A posting of the chain: the report, the count there, and the place behind it.
#[derive(Clone, Copy)]
pub struct Step {
    pub number: u32,
    pub count: u32,
    pub next: Cursor,
}

// Whether the part of the cursor's block is read to its end: to the write offset in the tail, elsewhere to the block's
// end or a null byte.
#[tactic(auto, using(blocks::proofs::Sizes::bounds), unfolding(crate::specs::Chains::exhausted))]
fn is_exhausted(arena: &[u8], c: Cursor) -> bool
    requires { place c.block + block_size ≤ length arena.now }
    ensures { result ≡ exhausted arena.now c }
{
    if c.block == c.tail {
        return c.end <= c.at;
    }
    blocks::block_size() <= c.at || arena[blocks::place_of(c.block) + c.at] == 0
}

// Where the part of the cursor's block ends.
#[tactic(auto, using(blocks::proofs::Sizes::bounds), unfolding(crate::specs::Chains::part_end))]
pub fn part_end(c: Cursor) -> usize
    ensures { result ≡ part_end c c.block }
{
    if c.block == c.tail {
        c.end
    } else {
        blocks::block_size()
    }
}

// The bytes of the cursor's part, from the cursor on: whoever reads a block's postings reads in them, from offset 0.
#[tactic(auto, using(blocks::proofs::Sizes::bounds, crate::proofs::Steps::in_part))]
fn part_bytes<'a>(arena: &'a [u8], c: Cursor) -> &'a [u8]
    requires { (place c.block + block_size ≤ length arena.now) × (c.end ≤ block_size) × (c.at ≤ part_end c c.block) }
    ensures is { result.now ≡ part_at arena.now c }
    ensures length { length result.now ≡ part_end c c.block - c.at }
{
    blocks::part_of(arena, c.block, c.at, part_end(c))
}

// The posting at the cursor. It is taken into its two callers: what is decoded then stays out of memory.
#[inline(always)]
#[tactic(auto, using(blocks::proofs::Sizes::bounds, crate::proofs::Steps::in_part))]
fn posting_at(arena: &[u8], c: Cursor) -> Option<Decoded>
    requires { (place c.block + block_size ≤ length arena.now) × (c.end ≤ block_size) × (c.at ≤ part_end c c.block) }
    ensures is { result ≡ decoded (part_at arena.now c) }
    ensures within { IfSome result (λ d. c.at + d.length ≤ part_end c c.block) }
{
    postings::decode(part_bytes(arena, c))
}

// A number that was counted, where it is past the last one.
fn past_last(last: u32, number: Option<u32>) -> Option<u32>
    ensures { result ≡ past_last last number }
{
    let n = number?;
    (last < n).then_some(n)
}

// The step to a posting with number n.
fn step_to(c: Cursor, d: Decoded, n: u32) -> Step
    requires { c.at + d.length ≤ max_word }
    ensures { result ≡ record { number = n; count = d.count; next = past c n d.length } }
{
    Step {
        number: n,
        count: d.count,
        next: Cursor {
            at: c.at + d.length,
            number: n,
            first: if c.first == 0 { n } else { c.first },
            ..c
        },
    }
}

// The first posting of a block, at the cursor: its b-gap counts from the first number of the block before, at a head
// from 0.
#[tactic(auto, using(blocks::proofs::Sizes::bounds, crate::proofs::Steps::in_part), unfolding(crate::specs::Chains::read_at, crate::specs::Chains::given, crate::specs::Chains::step_to))]
fn read_first(arena: &[u8], reports: u32, c: Cursor, first: u32) -> Result<Option<Step>, Refusal>
    requires { (place c.block + block_size ≤ length arena.now) × (c.end ≤ block_size) × (c.at ≤ part_end c c.block) }
    ensures { result ≡ read_at arena.now reports c first }
{
    let d = posting_at(arena, c).ok_or(Refusal::Damaged)?;
    let n = past_last(c.number, d.b_gap().from_first(first, reports)).ok_or(Refusal::Damaged)?;
    Ok(Some(step_to(c, d, n)))
}

// Any other posting of a block, at the cursor: its d-gap counts from the last number.
#[tactic(auto, using(blocks::proofs::Sizes::bounds, crate::proofs::Steps::in_part), unfolding(crate::specs::Chains::read_at, crate::specs::Chains::given, crate::specs::Chains::step_to))]
fn read_next(arena: &[u8], reports: u32, c: Cursor) -> Result<Option<Step>, Refusal>
    requires { (place c.block + block_size ≤ length arena.now) × (c.end ≤ block_size) × (c.at ≤ part_end c c.block) }
    ensures { result ≡ read_at arena.now reports c c.number }
{
    let d = posting_at(arena, c).ok_or(Refusal::Damaged)?;
    let n = past_last(c.number, d.d_gap().from_last(c.number, reports)).ok_or(Refusal::Damaged)?;
    Ok(Some(step_to(c, d, n)))
}

// The block that a block's link leads to, where it is used.
fn linked(used: Used, b: u32) -> Option<u32>
    requires { b < used.blocks }
    ensures { result ≡ linked used.entry.arena.now used.entry.blocks b }
{
    let next = blocks::link_of(used.arena, b);
    (next < used.blocks).then_some(next)
}

// The same of the block that a link led to.
fn linked_on(used: Used, next: Option<u32>) -> Option<u32>
    requires { IfSome next (λ b. b < used.blocks) }
    ensures { IfSome next (λ b. result ≡ linked used.entry.arena.now used.entry.blocks b) }
{
    linked(used, next?)
}

// The start of the next block: none where the link leads to no used one, or there are more blocks than used.
#[tactic(auto, using(blocks::proofs::Sizes::bounds), unfolding(crate::specs::Chains::entered))]
fn entered(c: Cursor, next: Option<u32>) -> Option<Cursor>
    ensures { result ≡ entered_at c next }
{
    match next {
        Some(b) if 0 < c.left => Some(Cursor {
            block: b,
            at: blocks::link_size(),
            first: 0,
            left: c.left - 1,
            ..c
        }),
        _ => None,
    }
}

// The first posting of the next block.
#[tactic(auto, using(blocks::proofs::Sizes::bounds, crate::proofs::Steps::stepping), unfolding(crate::specs::Chains::next_block, crate::specs::Chains::entered))]
pub fn next_block(used: Used, reports: u32, c: Cursor) -> Result<Option<Step>, Refusal>
    requires { Follows used.arena.now used.blocks c × (link_size ≤ c.end) }
    ensures { result ≡ next_block used.entry.arena.now used.entry.blocks reports c }
{
    let next = entered(c, linked(used, c.block)).ok_or(Refusal::Damaged)?;
    read_first(used.arena, reports, next, c.first)
}

// One posting after another: the one at the cursor with the cursor past it; none at the chain's end. It is taken into
// the loops that call it, so that a step within a part makes no call.
#[inline(always)]
#[tactic(auto, using(blocks::proofs::Sizes::bounds, crate::proofs::Steps::stepping), unfolding(crate::specs::Chains::step_at))]
pub fn advance(used: Used, reports: u32, c: Cursor) -> Result<Option<Step>, Refusal>
    requires { Follows used.arena.now used.blocks c × (link_size ≤ c.end) }
    ensures { result ≡ step_at used.entry.arena.now used.entry.blocks reports c }
{
    if is_exhausted(used.arena, c) {
        if c.first == 0 {
            return Err(Refusal::Damaged);
        }
        if c.block == c.tail {
            return Ok(None);
        }
        return next_block(used, reports, c);
    }
    if c.first == 0 {
        return read_first(used.arena, reports, c, 0);
    }
    read_next(used.arena, reports, c)
}

// ---- several steps within a block's part

// Where reading on in a part stopped: the offset and the number behind the last posting passed, and how many were
// passed.
pub type Passed = Sum<u32>;

// The number that a posting's gap leads to from the last one, where it is not over reports. Where that is known, as in a
// chain that was read whole before, it is not judged again.
fn next_number<const JUDGED: bool>(gap: DGap, last: u32, reports: u32) -> Option<u32>
    requires { JUDGED ≡ false → last + gap.0 ≤ reports }
    ensures { result ≡ counted reports last gap.0 }
{
    if JUDGED {
        return gap.from_last(last, reports);
    }
    Some(gap.behind(last))
}

// Reads on in a block's part while numbers are below `to`: to the part's end, or to where no sound posting stands. One
// loop over plain numbers, without a cursor for each posting. Where no number of the part is over reports none is
// judged.
pub fn pass<const JUDGED: bool>(
    part: &[u8],
    reports: u32,
    at: usize,
    number: u32,
    to: u32,
) -> Passed
    requires below { number ≤ reports }
    requires known { JUDGED ≡ false → Bounded part.now reports at number }
    ensures { result ≡ passed part.now reports at number to }
{
    let mut p = Passed {
        at,
        number,
        postings: 0,
    };
    while p.at < part.len() && p.number < to {
        let Some(d) = postings::decode_at(part, p.at) else {
            break;
        };
        let Some(n) = next_number::<JUDGED>(d.d_gap(), p.number, reports) else {
            break;
        };
        p.number = n;
        p.at += d.length;
        p.postings += 1;
    }
    p
}

// Reads on to the part's end, or to where no sound posting stands. All postings are added up before the last number is
// judged; only where that is over reports, so that the part is damaged, it is read again for the posting that is.
#[tactic(auto, using(blocks::proofs::Sizes::bounds, crate::proofs::Added::added_passed))]
fn pass_all(part: &[u8], reports: u32, at: usize, number: u32) -> Passed
    requires { (number ≤ reports) × (length part.now ≤ max_word) }
    ensures { result ≡ passed part.now reports at number reports }
{
    let all = sums::add_all(part, at, number);
    if u64::from(reports) < all.number {
        return pass::<true>(part, reports, at, number, reports);
    }
    Passed {
        at: all.at,
        number: all.number as u32,
        postings: all.postings,
    }
}

// The cursor's place with another offset in the same block.
pub fn moved(c: Cursor, at: usize, number: u32) -> Cursor
    ensures { result ≡ moved_to c at number }
{
    Cursor { at, number, ..c }
}

// The cursor's place behind what is passed of its block's part, from behind its first posting on, in a chain that was
// read whole before.
#[tactic(auto, using(blocks::proofs::Sizes::bounds, crate::proofs::Steps::in_part, crate::proofs::Passing::passed_known), unfolding(crate::specs::Parts::passed_to))]
pub fn pass_part(arena: &[u8], c: Cursor, to: u32) -> Cursor
    requires { InPart arena.now max_word c × Known arena.now max_word c }
    ensures { (reports : ℕ) → Known arena.now reports c → result ≡ passed_to arena.now reports c to }
{
    let p = pass::<false>(part_bytes(arena, c), u32::MAX, 0, c.number, to);
    moved(c, c.at + p.at, p.number)
}

// ---- a reader that holds the arena and a place

// The used blocks of an arena, the reports there are, and the place of the next posting.
#[derive(Clone, Copy)]
pub struct ChainReader<'a> {
    pub arena: &'a [u8],
    pub used: u32,
    pub reports: u32,
    pub place: Cursor,
}

// A step from any place: damage where it lies in no used block, or its write offset in no block.
#[tactic(auto, using(blocks::proofs::Sizes::bounds), unfolding(crate::specs::Chains::step_from, crate::specs::Chains::is_place))]
pub fn step_from(
    arena: &[u8],
    used: u32,
    reports: u32,
    place: Cursor,
) -> Result<Option<Step>, Refusal>
    ensures { result ≡ step_from arena.now used reports place }
{
    if blocks::capacity_of(arena) < used || used <= place.block {
        return Err(Refusal::Damaged);
    }
    if place.end < blocks::link_size() || blocks::block_size() < place.end {
        return Err(Refusal::Damaged);
    }
    let used = Used {
        arena,
        blocks: used,
    };
    advance(used, reports, place)
}

impl<'a> ChainReader<'a> {
    // The posting at the reader's place, with the place behind it.
    pub fn next(self) -> Result<Option<Step>, Refusal>
        ensures { result ≡ step_from self.entry.arena.now self.entry.used self.entry.reports self.entry.place }
    {
        step_from(self.arena, self.used, self.reports, self.place)
    }
}

// ---- a whole chain

// What was read of a block's part: its first number, and where reading on from behind it stopped.
#[derive(Clone, Copy)]
pub struct PartRead {
    pub first: u32,
    pub rest: Passed,
}

// A tail that is not used, or a write offset out of place.
#[tactic(auto, using(blocks::proofs::Sizes::bounds), unfolding(crate::specs::Chains::bad_head))]
pub fn is_bad_head(d: Head, used: u32, h: u32) -> bool
    requires { d.length < 256 }
    ensures { result ≡ bad_head d used h }
{
    used <= d.tail || d.end <= blocks::part_start(d, h, d.tail) || blocks::block_size() < d.end
}

// The cursor before the first posting of head h.
#[tactic(auto, using(blocks::proofs::Fields::part_own), unfolding(crate::specs::Chains::at_head))]
pub fn at_head(d: Head, used: u32, h: u32) -> Cursor
    requires { (h < used) × (d.length < 256) }
    ensures { result ≡ at_head d used h }
{
    Cursor {
        tail: d.tail,
        end: d.end,
        block: h,
        at: blocks::part_start(d, h, h),
        number: 0,
        first: 0,
        left: used - 1,
    }
}

// Reads the part of the cursor's block from the cursor on: its first posting, whose gap counts from `base`, and those
// behind it. None where no sound posting stands there.
#[tactic(auto, using(blocks::proofs::Sizes::bounds, crate::proofs::Steps::in_part), unfolding(crate::specs::Parts::part_read, crate::specs::Parts::opened))]
fn read_part(arena: &[u8], reports: u32, c: Cursor, base: u32) -> Option<PartRead>
    requires { (place c.block + block_size ≤ length arena.now) × (c.end ≤ block_size) × (base ≤ reports) }
    ensures { result ≡ part_read (part_at arena.now c) reports base }
{
    if part_end(c) <= c.at {
        return None;
    }
    let part = part_bytes(arena, c);
    let d = postings::decode(part)?;
    let first = d.b_gap().from_first(base, reports)?;
    let rest = pass_all(part, reports, d.length, first);
    Some(PartRead { first, rest })
}

// The fields of a head, whose term's length is a byte: what a slice knows of its bytes is not known of a field.
fn head_in(arena: &[u8], h: u32) -> Head
    requires { place h + block_size ≤ length arena.now }
    ensures fields { result ≡ head_of arena.now h }
    ensures short { result.length < 256 }
{
    blocks::head_of(arena, h)
}

// Whether n postings up to a number are those that a head says.
fn agrees(d: Head, n: u32, number: u32) -> bool
    ensures { result ≡ eqb n d.postings && eqb number d.last }
{
    n == d.postings && number == d.last
}

// Reads the chain of head h whole: whether it is sound. Each turn reads a block; `base` is the first number of the
// block before, 0 at the head. The next block's link is asked for before this one is read: its load misses the caches,
// and so it overlaps with the reading.
pub fn is_sound(used: Used, reports: u32, h: u32) -> bool
    requires { h < used.blocks }
    ensures { result ≡ is_whole (chain_of used.entry.arena.now used.entry.blocks reports h) }
{
    let arena = used.arena;
    let d = head_in(arena, h);
    if is_bad_head(d, used.blocks, h) {
        return false;
    }
    let mut c = at_head(d, used.blocks, h);
    let mut next = linked(used, h);
    let mut base: u32 = 0;
    let mut n: u32 = 0;
    loop {
        let after = linked_on(used, next);
        let Some(r) = read_part(arena, reports, c, base) else {
            return false;
        };
        if r.first <= c.number {
            return false;
        }
        n += 1 + r.rest.postings;
        c = Cursor {
            at: c.at + r.rest.at,
            number: r.rest.number,
            first: r.first,
            ..c
        };
        if !is_exhausted(arena, c) {
            return false;
        }
        if c.block == c.tail {
            return agrees(d, n, c.number);
        }
        let Some(e) = entered(c, next) else {
            return false;
        };
        c = e;
        next = after;
        base = r.first;
    }
}
