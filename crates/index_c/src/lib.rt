// The outer calls of the index for C and for Rust: a static library over crates/index, with one export for each call.
// Each export calls the function of the same name and states its clauses again; include/report_index.h documents them.
#![tactic(auto)]

ghost use Rattle.std.specs.Prelude.{◌≡◌, []};
ghost use Rattle.counters.specs.Counters.{memory};
ghost use Rattle.ingest.specs.Report.{report_call};
ghost use Rattle.query.specs.Listing.{list_one_call, list_all_call};
ghost use Rattle.query.specs.Needs.{filled_as, all_as};
ghost use Rattle.ledger.specs.Calls.{cleared};

use counters::Counters;
use ingest::ReportAnswer;
use query::ListAnswer;

// Starts an index: clears the table and the counters and leaves the arena alone.
#[unsafe(no_mangle)]
pub extern "C" fn report_index_start(table: &mut [u32], counters: &mut Counters)
    ensures { (table.new ≡ (cleared (memory [] table.old counters.old)).table)
        × (counters.new ≡ (cleared (memory [] table.old counters.old)).counters) }
{
    index::report_index_start(table, counters);
}

// Takes a report: the refusal (0 for none) and the report's number.
#[unsafe(no_mangle)]
pub extern "C" fn report_index_report(
    arena: &mut [u8],
    table: &mut [u32],
    counters: &mut Counters,
    frame: &[u8],
) -> ReportAnswer
    ensures { (result ≡ (report_call (memory arena.old table.old counters.old) frame.now).answer)
        × (arena.new ≡ (report_call (memory arena.old table.old counters.old) frame.now).left.arena)
        × (table.new ≡ (report_call (memory arena.old table.old counters.old) frame.now).left.table)
        × (counters.new ≡ (report_call (memory arena.old table.old counters.old) frame.now).left.counters) }
{
    index::report_index_report(arena, table, counters, frame)
}

// Lists the reports that hold one term: how many numbers and counts were filled in, and whether more remain.
#[unsafe(no_mangle)]
pub extern "C" fn report_index_list_one(
    arena: &[u8],
    table: &[u32],
    counters: &Counters,
    frame: &[u8],
    numbers: &mut [u32],
    counts: &mut [u32],
) -> ListAnswer
    ensures { filled_as result numbers.new counts.new ≡ list_one_call (memory arena.now table.now counters.now) frame.now numbers.old counts.old }
{
    index::report_index_list_one(arena, table, counters, frame, numbers, counts)
}

// Lists the reports that hold all of 1 to 8 terms: how many numbers were filled in, and whether more remain.
#[unsafe(no_mangle)]
pub extern "C" fn report_index_list_all(
    arena: &[u8],
    table: &[u32],
    counters: &Counters,
    frame: &[u8],
    numbers: &mut [u32],
) -> ListAnswer
    ensures { all_as result numbers.new ≡ list_all_call (memory arena.now table.now counters.now) frame.now numbers.old }
{
    index::report_index_list_all(arena, table, counters, frame, numbers)
}
