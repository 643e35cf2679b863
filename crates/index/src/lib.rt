// The outer calls of the index (document 01, "Memory lent to the index"): thin over the cores that take the counters by
// value. crates/index_c exports them for C and Rust under these names; include/report_index.h documents them.
#![tactic(auto)]

ghost use Rattle.std.specs.Prelude.{◌≡◌, [], length, replicate};
ghost use Rattle.counters.specs.Counters.{memory};
ghost use Rattle.ingest.specs.Report.{report_call};
ghost use Rattle.query.specs.Listing.{list_one_call, list_all_call};
ghost use Rattle.query.specs.Needs.{filled_as, all_as};
ghost use Rattle.ledger.specs.Calls.{cleared};

use counters::Counters;
use ingest::ReportAnswer;
use query::ListAnswer;

// Writes nulls into the whole table: what a start does but for the counters.
pub fn clear_table(table: &mut [u32])
    ensures { table.new ≡ replicate (length table.old) 0 }
{
    table.fill(0);
}

// Starts an index: clears the table and the counters and leaves the arena alone.
#[tactic(auto, unfolding(ledger::specs::Calls::cleared))]
pub fn report_index_start(table: &mut [u32], counters: &mut Counters)
    ensures { (table.new ≡ (cleared (memory [] table.old counters.old)).table)
        × (counters.new ≡ (cleared (memory [] table.old counters.old)).counters) }
{
    clear_table(table);
    *counters = Counters::default();
}

// Takes a report: the refusal (0 for none) and the report's number.
#[tactic(auto, unfolding(ingest::specs::Report::taken_of))]
pub fn report_index_report(
    arena: &mut [u8],
    table: &mut [u32],
    counters: &mut Counters,
    frame: &[u8],
) -> ReportAnswer
    ensures { (result ≡ (report_call (memory arena.old table.old counters.old) frame.now).answer)
        × (arena.new ≡ (report_call (memory arena.old table.old counters.old) frame.now).left.arena)
        × (table.new ≡ (report_call (memory arena.old table.old counters.old) frame.now).left.table)
        × (counters.new ≡ (report_call (memory arena.old table.old counters.old) frame.now).left.counters) }
{
    let r = ingest::take_report(arena, table, *counters, frame);
    *counters = r.counters;
    r.answer
}

// Lists the reports that hold one term: how many numbers and counts were filled in, and whether more remain.
pub fn report_index_list_one(
    arena: &[u8],
    table: &[u32],
    counters: &Counters,
    frame: &[u8],
    numbers: &mut [u32],
    counts: &mut [u32],
) -> ListAnswer
    ensures { filled_as result numbers.new counts.new ≡ list_one_call (memory arena.now table.now counters.now) frame.now numbers.old counts.old }
{
    query::list_one(arena, table, *counters, frame, numbers, counts)
}

// Lists the reports that hold all of 1 to 8 terms: how many numbers were filled in, and whether more remain.
pub fn report_index_list_all(
    arena: &[u8],
    table: &[u32],
    counters: &Counters,
    frame: &[u8],
    numbers: &mut [u32],
) -> ListAnswer
    ensures { all_as result numbers.new ≡ list_all_call (memory arena.now table.now counters.now) frame.now numbers.old }
{
    query::list_all(arena, table, *counters, frame, numbers)
}
