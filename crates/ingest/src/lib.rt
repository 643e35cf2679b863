// Taking a report: all lines are judged before a byte is written.
#![tactic(auto)]

ghost use Rattle.std.specs.Prelude.{◌≡◌, List, ℕ, Ok, OnErr, IfOk, ◌+◌, ◌-◌, ◌≤◌, ◌<◌, length, get_or};
ghost use Rattle.terms.specs.Terms.{max_term, fnv1a};
ghost use Rattle.frames.specs.Frames.{max_body, lines, report_lines};
ghost use Rattle.frames.specs.Refusals.{first_of};
ghost use Rattle.blocks.specs.Fields.{max_word, place};
ghost use Rattle.lookup.specs.Lookup.{slots, search};
ghost use Rattle.counters.specs.Counters.{memory, max_terms};
ghost use Rattle.refusals.specs.Numbers.{number_of, refused_under};
ghost use Rattle.ingest.specs.Report.{line_of, damaged_head, place_at, placed, place_of, plan_rows, lines_plan, write_lines, call_refusal, report_call, taken_of};
ghost use Rattle.ingest.specs.Needs.{Room, HeadIs, Below, Held, with_place, needed, Plans, write_one, wrote, refused_with};
ghost use Rattle.ingest.specs.declared.Place.TheVariants.{New};

use blocks::{Head, Used};
use counters::{Counters, Lent};
use frames::{Line, Lines, MAX_FRAME, MAX_LINES};
use lookup::Found;
use refusals::Refusal;

#[repr(C)]
#[derive(Clone, Copy)]
pub struct ReportAnswer {
    pub refusal: u8,
    pub number: u32,
}

// The answer with the counters that the call leaves.
#[derive(Clone, Copy)]
pub struct Taken {
    pub answer: ReportAnswer,
    pub counters: Counters,
}

// Where a line goes: a new term into an empty slot, a posting that fits in the tail of a head's chain, or one that does
// not.
#[derive(Clone, Copy)]
pub enum Place {
    New(u32),
    Stays(u32),
    Spills(u32),
}

// What the lines need together.
#[derive(Clone, Copy, Default)]
pub struct Plan {
    pub terms: u32,
    pub blocks: u32,
}

// Writing stopped at a line: the counters after the lines before it.
#[derive(Clone, Copy)]
pub struct Stopped {
    pub left: Counters,
}

// ---- where a line goes

// An arena with its counters, past refusals 8 and 9: the used blocks lie in it, and another report can be numbered.
// What a slice knows of its bytes is not known of a field, so it is said.
#[derive(Clone, Copy)]
struct Arena<'a> {
    bytes: &'a [u8],
    k: Counters,
    ghost fits: { (i : ℕ) → get_or bytes.now i 0 < 256 },
    ghost room: { Room bytes.now k },
}

impl<'a> Arena<'a> {
    // The blocks in use.
    fn used(self) -> Used<'a>
        ensures { (result.arena.now ≡ self.entry.bytes.now) × (result.blocks ≡ self.entry.k.used) }
    {
        Used {
            arena: self.bytes,
            blocks: self.k.used,
        }
    }

    // Damage of a known term when a report is taken. The tail's first number is read once the tail is known to be used.
    #[tactic(auto, unfolding(crate::specs::Report::damaged_head))]
    fn is_damaged(self, h: u32, d: Head) -> bool
        requires { (h < self.k.used) × (d.length < 256) }
        ensures { result ≡ damaged_head self.entry.bytes.now self.entry.k h d }
    {
        if chains::is_bad_head(d, self.k.used, h) {
            return true;
        }
        let first = blocks::link_of(self.bytes, d.tail);
        let reports = self.k.reports;
        reports < d.last || reports < first || reports < d.postings
    }

    // The fields of a known term's head, which is not damaged.
    fn sound_head(self, h: u32) -> Result<Head, Refusal>
        requires { h < self.k.used }
        ensures { HeadIs self.entry.bytes.now self.entry.k h result }
    {
        let d = blocks::head_of(self.bytes, h);
        if self.is_damaged(h, d) {
            return Err(Refusal::Damaged);
        }
        Ok(d)
    }

    // The place of a known term's line.
    #[tactic(auto, unfolding(crate::specs::Report::place_at))]
    fn place_at(self, count: u32, h: u32) -> Result<Place, Refusal>
        requires { h < self.k.used }
        ensures { result ≡ place_at self.entry.bytes.now self.entry.k count h }
    {
        let d = self.sound_head(h)?;
        if blocks::fits_in(d, self.k.reports + 1, count) {
            return Ok(Place::Stays(h));
        }
        Ok(Place::Spills(h))
    }

    // The place of a line, by what the search for its term found.
    #[tactic(auto, unfolding(crate::specs::Report::placed))]
    fn place_found(self, found: Found, count: u32) -> Result<Place, Refusal>
        requires { Below self.k.used found }
        ensures { result ≡ placed self.entry.bytes.now self.entry.k count (Ok found) }
    {
        match found {
            Found::Unknown(s) => Ok(Place::New(s)),
            Found::At(h) => self.place_at(count, h),
        }
    }
}

// ---- what the lines need

impl Plan {
    // The plan with a line more.
    #[tactic(auto, unfolding(crate::specs::Needs::with_place, crate::specs::Report::terms_for, crate::specs::Report::blocks_for,))]
    fn with(self, p: Place) -> Plan
        requires { (self.terms < max_word) × (self.blocks < max_word) }
        ensures { result ≡ with_place self p }
    {
        match p {
            Place::New(_) => Plan {
                terms: self.terms + 1,
                blocks: self.blocks + 1,
            },
            Place::Stays(_) => self,
            Place::Spills(_) => Plan {
                blocks: self.blocks + 1,
                ..self
            },
        }
    }
}

// The places of all lines on the memory as it is. The first slots of all lines, and then the heads that they lead to,
// are asked for before the first is compared: their loads miss the caches, and so they overlap.
fn plan_lines(arena: Arena, table: &[u32], lines: Lines) -> Result<Plan, Refusal>
    ensures { let m = memory arena.entry.bytes.now table.now arena.entry.k in
        Plans (lines_plan m (report_lines lines.entry.frame.now)) result }
{
    let used = arena.used();
    let mut entries = [0u32; MAX_LINES];
    let mut lengths = [0u8; MAX_LINES];
    lookup::first_entries(table, lines.hashes, &mut entries);
    lookup::first_lengths(used, &entries[..lines.hashes.len()], &mut lengths);
    let mut plan = Plan::default();
    for (n, line) in lines.iter().enumerate() {
        let found = lookup::find_from(used, table, line.name, entries[n], lengths[n])?;
        plan = plan.with(arena.place_found(found, line.count)?);
    }
    Ok(plan)
}

// Refusals 11 and 12 for what the lines need.
#[tactic(auto, unfolding(crate::specs::Report::plan_rows, frames::specs::Refusals::first_of))]
fn has_room(lent: Lent, plan: Plan) -> Result<(), Refusal>
    requires { plan.terms ≤ max_body }
    ensures { let m = memory lent.entry.arena.now lent.entry.table.now lent.entry.counters in
        refused_under result ≡ first_of (plan_rows m (needed plan)) }
{
    let k = lent.counters;
    if counters::max_terms(lent.table) < k.terms + plan.terms {
        return Err(Refusal::TableFull);
    }
    if blocks::capacity_of(lent.arena) - k.used < plan.blocks {
        return Err(Refusal::ArenaFull);
    }
    Ok(())
}

// ---- writing

// A line of a known term, judged afresh: its posting goes into the tail, or where it does not fit there into the next
// block. The head that is judged is the one that is written to, so it is read once. Table and term have no part in
// this.
#[tactic(auto, using(std::proofs::lemmas::Bool::Decides::nat_tests), unfolding(crate::specs::Needs::write_one, frames::specs::Refusals::first_of, crate::specs::Report::plan_rows, crate::specs::Report::plan_of, crate::specs::Report::total, basics::specs::Lists::any, crate::specs::Report::is_damaged, crate::specs::Report::terms_for, crate::specs::Report::blocks_for, crate::specs::Report::written, crate::specs::Report::place_at))]
fn append_line(arena: &mut [u8], k: Counters, h: u32, count: u32) -> Result<Counters, Stopped>
    requires { Room arena.old k × (h < k.used) }
    ensures { (t w : List ℕ) → k.terms ≤ max_terms t
        → wrote arena.new t result
        ≡ write_one (memory arena.old t k) (k.reports + 1) (line_of w count) (place_at arena.old k count h) }
{
    let number = k.reports + 1;
    let read = Arena { bytes: arena, k };
    let Ok(d) = read.sound_head(h) else {
        return Err(Stopped { left: k });
    };
    if blocks::fits_in(d, number, count) {
        blocks::add_to(arena, h, d, number, count);
        return Ok(k);
    }
    if blocks::capacity_of(arena) == k.used {
        return Err(Stopped { left: k });
    }
    blocks::join_to(arena, h, d, k.used, number, count);
    let used = k.used + 1;
    Ok(Counters { used, ..k })
}

// A line of a new term, judged afresh: its head, entered into the empty slot met. Where the table has no slot none was
// met, and no term may be held.
#[tactic(auto, using(std::proofs::lemmas::Bool::Decides::nat_tests), unfolding(crate::specs::Needs::write_one, frames::specs::Refusals::first_of, crate::specs::Report::plan_rows, crate::specs::Report::plan_of, crate::specs::Report::total, basics::specs::Lists::any, crate::specs::Report::is_damaged, crate::specs::Report::terms_for, crate::specs::Report::blocks_for, crate::specs::Report::written))]
fn open_line(
    arena: &mut [u8],
    table: &mut [u32],
    k: Counters,
    line: Line,
    slot: u32,
) -> Result<Counters, Stopped>
    requires { Room arena.old k × (0 < slots table.old → slot < slots table.old) }
    ensures { let l = line_of line.entry.name.bytes.now line.entry.count in
        wrote arena.new table.new result ≡ write_one (memory arena.old table.old k) (k.reports + 1) l (Ok (New slot)) }
{
    if counters::max_terms(table) <= k.terms || blocks::capacity_of(arena) == k.used {
        return Err(Stopped { left: k });
    }
    blocks::open_head(arena, k.used, line.name.bytes, k.reports + 1, line.count);
    lookup::enter_at(table, slot, k.used);
    Ok(Counters {
        used: k.used + 1,
        terms: k.terms + 1,
        ..k
    })
}

// One line, looked up and judged afresh when its turn comes.
#[tactic(auto, using(crate::proofs::Writing::one_damaged), unfolding(crate::specs::Report::place_of, crate::specs::Report::placed))]
fn write_line(
    arena: &mut [u8],
    table: &mut [u32],
    k: Counters,
    line: Line,
) -> Result<Counters, Stopped>
    requires { Held arena.old table.old k }
    ensures { let m = memory arena.old table.old k in
        let l = line_of line.entry.name.bytes.now line.entry.count in
        wrote arena.new table.new result ≡ write_one m (k.reports + 1) l (place_of m l) }
{
    let read = Arena { bytes: arena, k };
    match lookup::find(read.used(), table, line.name) {
        Ok(Found::Unknown(slot)) => open_line(arena, table, k, line, slot),
        Ok(Found::At(h)) => append_line(arena, k, h, line.count),
        Err(_) => Err(Stopped { left: k }),
    }
}

// The lines in frame order, each judged afresh when its turn comes.
fn write_lines(
    arena: &mut [u8],
    table: &mut [u32],
    k: Counters,
    lines: Lines,
) -> Result<Counters, Stopped>
    requires { Held arena.old table.old k }
    ensures { wrote arena.new table.new result
        ≡ write_lines (memory arena.old table.old k) (k.reports + 1) (report_lines lines.entry.frame.now) }
{
    let mut left = k;
    for line in lines.iter() {
        left = write_line(arena, table, left, line)?;
    }
    Ok(left)
}

// ---- the call

// Refusals 9 to 12 of a sound frame, past refusal 8.
fn judge_report(lent: Lent, lines: Lines) -> Result<(), Refusal>
    ensures { let m = memory lent.entry.arena.now lent.entry.table.now lent.entry.counters in
        refused_under result ≡ call_refusal m lines.entry.frame.now }
{
    if lent.counters.reports == u32::MAX {
        return Err(Refusal::NumbersSpent);
    }
    let arena = Arena {
        bytes: lent.arena,
        k: lent.counters,
    };
    let plan = plan_lines(arena, lent.table, lines)?;
    has_room(lent, plan)
}

// Refusals 1 to 12, before a byte is written; else what writing the lines comes to.
fn judge_and_write(
    arena: &mut [u8],
    table: &mut [u32],
    k: Counters,
    frame: &[u8],
) -> Result<Result<Counters, Stopped>, Refusal>
    ensures refused { refused_under result ≡ call_refusal (memory arena.old table.old k) frame.now }
    ensures untouched { OnErr result ((arena.new ≡ arena.old) × (table.new ≡ table.old)) }
    ensures written { IfOk result (λ w. wrote arena.new table.new w ≡ write_lines (memory arena.old table.old k) (k.reports + 1) (report_lines frame.now)) }
{
    let mut names = [0u8; MAX_FRAME];
    let mut hashes = [0u32; MAX_LINES];
    let lines = Lines::read(frame, &mut names, &mut hashes)?;
    let lent = Lent::new(arena, table, k)?;
    judge_report(lent, lines)?;
    Ok(write_lines(arena, table, k, lines))
}

fn refused(refusal: Refusal, k: Counters) -> Taken
    ensures { result ≡ refused_with (number_of refusal) k }
{
    Taken {
        answer: ReportAnswer {
            refusal: u8::from(refusal),
            number: 0,
        },
        counters: k,
    }
}

// Takes a report: the answer, and the counters that the call leaves.
pub fn take_report(arena: &mut [u8], table: &mut [u32], k: Counters, frame: &[u8]) -> Taken
    ensures { (result ≡ taken_of (report_call (memory arena.old table.old k) frame.now))
        × (arena.new ≡ (report_call (memory arena.old table.old k) frame.now).left.arena)
        × (table.new ≡ (report_call (memory arena.old table.old k) frame.now).left.table) }
{
    match judge_and_write(arena, table, k, frame) {
        Err(refusal) => refused(refusal, k),
        Ok(Err(stopped)) => refused(Refusal::Stopped, stopped.left),
        Ok(Ok(left)) => {
            let number = k.reports + 1;
            Taken {
                answer: ReportAnswer { refusal: 0, number },
                counters: Counters {
                    reports: number,
                    ..left
                },
            }
        }
    }
}
