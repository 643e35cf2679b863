// Answers the questions on standard input, a line each, by the proved functions: hashes, codings, decodings, foldings,
// frames, chains and whole lists of calls. The stored questions and the expected answers are written by the Rust
// reference (rust/reference), which shares no code with the functions under test.
#![tactic(auto, using(blocks::proofs::Sizes::bounds))]

ghost use Rattle.std.specs.Prelude.{IfOk, IfSome, ◌≡◌, false, ◌+◌, ◌<◌, ◌≤◌, length};
ghost use Rattle.terms.specs.Terms.{max_term};
ghost use Rattle.frames.specs.Frames.{first_term, terms, passes_end, bad_term};

use chains::ChainReader;
use counters::Counters;
use frames::{Cursors, Kind, Lines, MAX_FRAME, MAX_LINES, Query};
use ingest::ReportAnswer;
use query::ListAnswer;
use refusals::Refusal;
use std::io::{self, Read};
use terms::Folded;

fn print(rt: &impl Print, text: &str) -> io::Result<()> {
    print!(rt; "{text}")
}

// A space and a number.
fn print_number(rt: &impl Print, n: u64) -> io::Result<()> {
    print!(rt; " {n}")
}

fn print_word(rt: &impl Print, n: u32) -> io::Result<()> {
    print_number(rt, u64::from(n))
}

// A colon and a count.
fn print_count(rt: &impl Print, n: u32) -> io::Result<()> {
    print!(rt; ":{n}")
}

// A space and the bytes in hexadecimal, `-` for none.
fn print_bytes(rt: &impl Print, s: &[u8]) -> io::Result<()> {
    print(rt, " ")?;
    if s.is_empty() {
        print(rt, "-")?;
    }
    for b in s {
        print!(rt; "{b:02x}")?;
    }
    Ok(())
}

// Eight hexadecimal digits.
fn print_entry(rt: &impl Print, n: u32) -> io::Result<()> {
    print!(rt; "{n:08x}")
}

fn print_hash(rt: &impl Print, hash: u32) -> io::Result<()> {
    print(rt, " ")?;
    print_entry(rt, hash)
}

// Sort 1: the hash of the bytes as they stand.
fn hash(rt: &impl Print, payload: &[u8]) -> io::Result<()> {
    print(rt, "fnv")?;
    print_bytes(rt, payload)?;
    print_hash(rt, terms::fnv1a(payload))
}

// Sort 2: the code of a posting.
fn code(rt: &impl Print, payload: &[u8]) -> io::Result<()> {
    if payload.len() != 8 {
        return Ok(());
    }
    let gap = basics::read_word(payload, 0);
    let count = basics::read_word(payload, 4);
    if gap == 0 {
        return Ok(());
    }
    let mut bytes = [0u8; 10];
    let end = postings::put_posting(&mut bytes, 0, gap, count);
    print(rt, "code")?;
    print_word(rt, gap)?;
    print_word(rt, count)?;
    print_bytes(rt, &bytes[..end])
}

// Sort 3: the posting at the front of the bytes.
fn decode(rt: &impl Print, payload: &[u8]) -> io::Result<()> {
    print(rt, "decode")?;
    print_bytes(rt, payload)?;
    let Some(d) = postings::decode(payload) else {
        return print(rt, " refused");
    };
    print_word(rt, d.gap)?;
    print_word(rt, d.count)?;
    print_number(rt, d.length as u64)
}

// Sort 4: the folded term and its hash.
fn fold(rt: &impl Print, payload: &[u8]) -> io::Result<()> {
    print(rt, "term")?;
    print_bytes(rt, payload)?;
    if !terms::is_term(payload) {
        return print(rt, " refused");
    }
    let hash = print_folded(rt, payload)?;
    print_hash(rt, hash)
}

// The folded term in hexadecimal; its hash for those who print that too.
fn print_folded(rt: &impl Print, term: &[u8]) -> io::Result<u32>
    requires { length term.now ≤ max_term }
{
    let folded = Folded::new(term);
    let name = folded.name();
    print_bytes(rt, name.bytes)?;
    Ok(name.hash)
}

fn print_refusal(rt: &impl Print, refusal: Refusal) -> io::Result<()> {
    print(rt, " refused")?;
    print_number(rt, u64::from(u8::from(refusal)))
}

// The folded terms of a sound report with their counts.
fn report_frame(rt: &impl Print, frame: &[u8]) -> io::Result<()> {
    let mut names = [0u8; MAX_FRAME];
    let mut hashes = [0u32; MAX_LINES];
    match Lines::read(frame, &mut names, &mut hashes) {
        Err(refusal) => print_refusal(rt, refusal),
        Ok(lines) => {
            print(rt, " lines")?;
            for line in lines.iter() {
                print_bytes(rt, line.name.bytes)?;
                print_count(rt, line.count)?;
            }
            Ok(())
        }
    }
}

// The folded terms of a query, each of whose fields is a term.
fn print_terms(rt: &impl Print, frame: &[u8]) -> io::Result<()>
    requires { (passes_end 0 frame.now first_term ≡ false) × (bad_term frame.now (terms frame.now) ≡ false) }
{
    for c in Cursors::terms(frame) {
        print_folded(rt, c.term(frame))?;
    }
    Ok(())
}

// The start and the terms of a query, as the check of its frame gives them.
fn query_frame(rt: &impl Print, frame: &[u8], checked: Result<Query, Refusal>) -> io::Result<()>
    requires { IfOk checked (λ q. (passes_end 0 frame.now first_term ≡ false) × (bad_term frame.now (terms frame.now) ≡ false)) }
{
    match checked {
        Err(refusal) => print_refusal(rt, refusal),
        Ok(query) => {
            print(rt, " start")?;
            print_word(rt, query.start)?;
            print(rt, " terms")?;
            print_terms(rt, frame)
        }
    }
}

// Sort 5: a frame as the call of its kind reads it.
fn frame(rt: &impl Print, payload: &[u8]) -> io::Result<()> {
    let Some((kind, bytes)) = payload.split_first() else {
        return Ok(());
    };
    print(rt, "frame")?;
    print_number(rt, u64::from(*kind))?;
    print_bytes(rt, bytes)?;
    match Kind::try_from(*kind) {
        Ok(Kind::Report) => report_frame(rt, bytes),
        Ok(Kind::One) => query_frame(rt, bytes, frames::check_one(bytes)),
        Ok(Kind::All) => query_frame(rt, bytes, frames::check_all(bytes)),
        Err(_) => print(rt, " unknown"),
    }
}

// One posting more in the chain whose head is block 0, in an arena of 24 blocks. Returns the blocks used; nothing is
// written where the head is not sound, the posting does not follow the last one or there is no room.
fn put_posting(arena: &mut [u8], used: u32, number: u32, count: u32) -> u32
    requires { 1536 ≤ length arena.old }
{
    let d = blocks::head_of(arena, 0);
    if chains::is_bad_head(d, 24, 0) {
        return used;
    }
    let first = blocks::link_of(arena, d.tail);
    if 24 <= used || number <= d.last || number <= first || d.postings == u32::MAX {
        return used;
    }
    if blocks::append_posting(arena, 0, used, number, count) {
        used
    } else {
        used + 1
    }
}

// The postings, eight bytes each.
fn put_postings(arena: &mut [u8], postings: &[u8]) -> u32
    requires { 1536 ≤ length arena.old }
{
    let mut used: u32 = 1;
    for posting in postings.chunks_exact(8) {
        let number = basics::read_word(posting, 0);
        let count = basics::read_word(posting, 4);
        used = put_posting(arena, used, number, count);
    }
    used
}

// The postings of the chain whose head is block 0, as a chain reader gives them.
fn print_chain(rt: &impl Print, arena: &[u8], used: u32) -> io::Result<()>
    requires { (64 ≤ length arena.now) × (0 < used) }
{
    let d = blocks::head_of(arena, 0);
    let reports = d.last;
    let mut place = chains::at_head(d, used, 0);
    while place.number < reports {
        let reader = ChainReader {
            arena,
            used,
            reports,
            place,
        };
        match reader.next() {
            Ok(Some(step)) => {
                print_word(rt, step.number)?;
                print_count(rt, step.count)?;
                place = step.next;
            }
            Ok(None) => return print(rt, " end"),
            Err(_) => return print(rt, " damaged"),
        }
    }
    Ok(())
}

// A head for the term at block 0, with its first posting.
fn open_first(arena: &mut [u8], term: &[u8], number: u32, count: u32)
    requires { (length term.now ≤ max_term) × (0 < number) × (64 ≤ length arena.old) }
{
    let folded = Folded::new(term);
    blocks::open_head(arena, 0, folded.name().bytes, number, count);
}

// Sort 6: the chain of one term, laid out in an arena of null bytes with its head at block 0.
fn chain(rt: &impl Print, payload: &[u8]) -> io::Result<()> {
    if payload.is_empty() {
        return Ok(());
    }
    let from = 1 + usize::from(payload[0]);
    if payload.len() < from + 8 {
        return Ok(());
    }
    let term = &payload[1..from];
    if !terms::is_term(term) {
        return Ok(());
    }
    let number = basics::read_word(payload, from);
    if number == 0 {
        return Ok(());
    }
    let mut arena = [0u8; 1536];
    open_first(
        &mut arena,
        term,
        number,
        basics::read_word(payload, from + 4),
    );
    let used = put_postings(&mut arena, &payload[from + 8..]);
    print(rt, "blocks")?;
    print_bytes(rt, term)?;
    if 0 < used {
        print_chain(rt, &arena, used)?;
    }
    if used <= 24 {
        let end = blocks::place_of(used);
        print_bytes(rt, &arena[..end])?;
    }
    Ok(())
}

// ---- lists of calls

// Some bytes behind two with their number, and all behind these; none where they are fewer.
fn cut<'a>(s: &'a [u8]) -> Option<(&'a [u8], &'a [u8])>
    ensures { IfSome result (λ (a, b). length b.now < length s.now) }
{
    let [high, low, behind @ ..] = s else {
        return None;
    };
    behind.split_at_checked(basics::pair(*high, *low))
}

fn print_refused(rt: &impl Print, refusal: u8) -> io::Result<()> {
    print!(rt; " E {refusal}")
}

fn print_taken(rt: &impl Print, answer: ReportAnswer) -> io::Result<()> {
    if answer.refusal != 0 {
        return print_refused(rt, answer.refusal);
    }
    print(rt, " R")?;
    print_word(rt, answer.number)
}

// The places that were filled, with their counts where there are any.
fn print_listed(
    rt: &impl Print,
    answer: ListAnswer,
    numbers: &[u32],
    counts: Option<&[u32]>,
) -> io::Result<()> {
    if answer.refusal != 0 {
        return print_refused(rt, answer.refusal);
    }
    print(rt, " Q")?;
    print_word(rt, answer.filled)?;
    print(rt, if answer.more { " +" } else { " -" })?;
    for (i, number) in numbers.iter().take(answer.filled as usize).enumerate() {
        print_word(rt, *number)?;
        if let Some(count) = counts.and_then(|c| c.get(i)) {
            print_count(rt, *count)?;
        }
    }
    Ok(())
}

// The call of a kind, with so many places in each list.
fn call(
    rt: &impl Print,
    arena: &mut [u8],
    table: &mut [u32],
    k: Counters,
    kind: Kind,
    frame: &[u8],
    places: u8,
) -> io::Result<Counters> {
    let mut numbers = [0u32; 256];
    let mut counts = [0u32; 256];
    let numbers = &mut numbers[..usize::from(places)];
    let counts = &mut counts[..usize::from(places)];
    match kind {
        Kind::Report => {
            let taken = ingest::take_report(arena, table, k, frame);
            print_taken(rt, taken.answer)?;
            return Ok(taken.counters);
        }
        Kind::One => {
            let answer = query::list_one(arena, table, k, frame, numbers, counts);
            print_listed(rt, answer, numbers, Some(counts))?;
        }
        Kind::All => {
            let answer = query::list_all(arena, table, k, frame, numbers);
            print_listed(rt, answer, numbers, None)?;
        }
    }
    Ok(k)
}

// The calls one after another: a null byte for a start, else the kind, two bytes of length and the frame. A frame of
// another kind is passed over.
fn run_calls(
    rt: &impl Print,
    arena: &mut [u8],
    table: &mut [u32],
    calls: &[u8],
    places: u8,
) -> io::Result<Counters> {
    let mut k = Counters::default();
    let mut left = calls;
    while let [kind, behind @ ..] = left {
        left = behind;
        if *kind == 0 {
            index::clear_table(table);
            k = Counters::default();
            print(rt, " S")?;
            continue;
        }
        let Some((frame, others)) = cut(behind) else {
            break;
        };
        left = others;
        if let Ok(kind) = Kind::try_from(*kind) {
            k = call(rt, arena, table, k, kind, frame, places)?;
        }
    }
    Ok(k)
}

// The table's entries in hexadecimal, `-` for none.
fn print_table(rt: &impl Print, table: &[u32]) -> io::Result<()> {
    print(rt, " ")?;
    if table.is_empty() {
        print(rt, "-")?;
    }
    for entry in table {
        print_entry(rt, *entry)?;
    }
    Ok(())
}

fn calls_on(
    rt: &impl Print,
    arena: &mut [u8],
    table: &mut [u32],
    calls: &[u8],
    places: u8,
) -> io::Result<()> {
    let k = run_calls(rt, arena, table, calls, places)?;
    print(rt, " |")?;
    print_word(rt, k.used)?;
    print_word(rt, k.terms)?;
    print_word(rt, k.reports)?;
    print_table(rt, table)?;
    print_bytes(rt, arena)
}

// Sort 7: a list of calls on null memory of the given sizes, and the counters, table and arena that it leaves.
fn calls(rt: &impl Print, payload: &[u8]) -> io::Result<()> {
    if payload.len() < 5 {
        return Ok(());
    }
    let blocks = basics::pair(payload[0], payload[1]);
    let entries = basics::pair(payload[2], payload[3]);
    let places = payload[4];
    if 24 < blocks || 64 < entries {
        return Ok(());
    }
    print(rt, "calls")?;
    print_bytes(rt, payload)?;
    let mut arena = [0u8; 1536];
    let mut table = [0u32; 64];
    let bytes = blocks * 64;
    calls_on(
        rt,
        &mut arena[..bytes],
        &mut table[..entries],
        &payload[5..],
        places,
    )
}

fn answer(rt: &impl Print, sort: u8, payload: &[u8]) -> io::Result<()> {
    match sort {
        1 => hash(rt, payload)?,
        2 => code(rt, payload)?,
        3 => decode(rt, payload)?,
        4 => fold(rt, payload)?,
        5 => frame(rt, payload)?,
        6 => chain(rt, payload)?,
        7 => calls(rt, payload)?,
        _ => print(rt, "unknown")?,
    }
    print(rt, "\n")
}

// A question: its sort, the two-byte length of its payload, the payload.
fn answer_all(rt: &impl Print, questions: &[u8]) -> io::Result<()> {
    let mut left = questions;
    while let [sort, behind @ ..] = left {
        let Some((payload, others)) = cut(behind) else {
            break;
        };
        answer(rt, *sort, payload)?;
        left = others;
    }
    Ok(())
}

// Fills the buffer from standard input, or up to the input's end, and tells how many bytes were read. What comes behind
// is not waited for, and no memory is asked for.
fn read_full(rt: &HostRuntime, into: &mut [u8]) -> io::Result<usize>
    ensures { IfOk result (λ n. n ≤ length into.old) }
{
    let mut n: usize = 0;
    while n < into.len() {
        let got = rt.stdin().read(&mut into[n..])?;
        if got == 0 {
            break;
        }
        n += got;
    }
    Ok(n)
}

fn main(rt: HostRuntime) -> io::Result<()> {
    let mut questions = [0u8; 131072];
    let n = read_full(&rt, &mut questions)?;
    answer_all(&rt, &questions[..n])
}
