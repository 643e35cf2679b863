// Reading a frame: refusals 1 to 7, and cursors that hand out one line or term after another.
#![tactic(auto)]

ghost use Rattle.std.specs.Prelude.{◌≡◌, IfOk, OnOk, true, false, ◌+◌, ◌-◌, ◌≤◌, ◌<◌, length, get_or};
ghost use Rattle.basics.specs.Lists.{any, same};
ghost use Rattle.frames.specs.Refusals.{first_of};
ghost use Rattle.frames.specs.Frames.{
  max_body,
  first_line,
  first_term,
  count_bytes,
  term_at,
  count_at,
  past_field,
  Field,
  fields,
  lines,
  terms,
  passes_end,
  bad_term,
  repeated_term,
  folded_at,
  head_rows,
  field_rows,
  report_refusal,
  query_refusal,
};
ghost use Rattle.std.specs.Iterator.{at_most};
ghost use Rattle.frames.specs.Walk.{Goes, from_first};
ghost use Rattle.frames.specs.Answers.{byte_of, IsKind, IsQuery};
ghost use Rattle.frames.specs.Repeats.{chain, Chained};
ghost use Rattle.frames.specs.Read.{Folds, LineAt, name_at, max_lines, hashes_of, Read};
ghost use Rattle.std.proofs.lemmas.List.Edits.{sets};
ghost use Rattle.terms.specs.Terms.{judged_as};
ghost use Rattle.refusals.specs.Numbers.{refused_under};

mod folded;
mod report;

pub use folded::FoldedFrame;
use refusals::Refusal;
pub use report::{Line, Lines, LinesLeft};
use std::ops::Range;
use terms::{FoldingTable, Judged};

// The longest body of a frame.
pub const MAX_BODY: usize = 4096;

// The longest frame: a version, the length of the body in two bytes, and the body.
pub const MAX_FRAME: usize = MAX_BODY + 3;

// More than a frame has lines: each has 5 bytes or more, and 4,095 follow the kind.
pub const MAX_LINES: usize = 820;

// An offset of a frame at which a field starts, or the frame's end.
#[derive(Clone, Copy)]
pub struct Cursor {
    pub at: usize,
}

// The call that a frame is for.
#[derive(Clone, Copy, Debug, PartialEq, Eq)]
pub enum Kind {
    Report,
    One,
    All,
}

// A byte that is the kind of no call.
#[derive(Clone, Copy, Debug, PartialEq, Eq)]
pub struct UnknownKind(pub u8);

impl TryFrom<u8> for Kind {
    type Error = UnknownKind;

    ghost try_from_gives = { IsKind };

    fn try_from(byte: u8) -> Result<Self, UnknownKind> {
        match byte {
            1 => Ok(Kind::Report),
            2 => Ok(Kind::One),
            3 => Ok(Kind::All),
            _ => Err(UnknownKind(byte)),
        }
    }
}

// A query: the number from which to list, and where its first term stands.
#[derive(Clone, Copy)]
pub struct Query {
    pub start: u32,
    pub terms: Cursor,
}

impl Cursor {
    // Where the bytes of the field's term stand.
    fn term_range(self, frame: &[u8]) -> Range<usize>
        requires { self.at < length frame.now }
        ensures { (result.start ≡ self.at + 1) × (result.end ≡ self.at + 1 + get_or frame.now self.at 0) }
    {
        let start = self.at + 1;
        start..start + usize::from(frame[self.at])
    }

    // The term of the field here: that part of the frame itself.
    #[tactic(auto, unfolding(crate::specs::Frames::past_field, crate::specs::Frames::term_at))]
    pub fn term<'a>(self, frame: &'a [u8]) -> &'a [u8]
        requires { Field 0 frame.now self.at }
        ensures { result.now ≡ term_at frame.now self.at }
    {
        &frame[self.term_range(frame)]
    }

    // Folds the term of the line here into its place in `names`, and judges it.
    #[tactic(auto, unfolding(crate::specs::Frames::past_field))]
    fn fold(self, frame: &[u8], table: &FoldingTable, names: &mut [u8]) -> Judged
        requires { Field 0 frame.now self.at × (length frame.now ≤ length names.old) }
        ensures folded { names.new ≡ sets names.old (self.at + 1) (folded_at frame.now self.at) }
        ensures judged { result ≡ judged_as (term_at frame.now self.at) }
    {
        terms::fold(self.term(frame), table, &mut names[self.term_range(frame)])
    }

    // The folded term of the field here.
    #[tactic(auto, unfolding(crate::specs::Frames::past_field))]
    pub fn name<'n>(self, folded: FoldedFrame<'_, 'n>) -> &'n [u8]
        requires { Field 0 folded.frame.now self.at
            × (name_at folded.frame.now folded.names.now self.at ≡ folded_at folded.frame.now self.at) }
        ensures { result.now ≡ folded_at folded.entry.frame.now self.at }
    {
        &folded.names[self.term_range(folded.frame)]
    }

    // The count of the line here.
    #[tactic(auto, unfolding(crate::specs::Frames::past_field, crate::specs::Frames::count_at))]
    pub fn count(self, frame: &[u8]) -> u32
        requires { Field count_bytes frame.now self.at }
        ensures { result ≡ count_at frame.now self.at }
    {
        basics::read_word(frame, self.term_range(frame).end)
    }

    // The cursor past the field here, which has `tail` bytes behind its term.
    #[tactic(auto, unfolding(crate::specs::Frames::past_field))]
    pub fn past(self, frame: &[u8], tail: usize) -> Self
        requires { (self.at < length frame.now) × (tail ≤ count_bytes) }
        ensures { result.at ≡ past_field tail frame.now self.at }
    {
        Cursor {
            at: self.term_range(frame).end + tail,
        }
    }
}

// The fields of a frame from an offset on, one after another. All but the last are known to end within the frame.
#[derive(Clone, Copy)]
pub struct Cursors<'a> {
    pub frame: &'a [u8],
    pub at: usize,
    pub tail: u8,
}

impl<'a> Cursors<'a> {
    // The lines of a report.
    pub fn lines(frame: &'a [u8]) -> Self
        ensures { result ≡ from_first first_line count_bytes frame.entry }
    {
        Cursors {
            frame,
            at: 4,
            tail: 4,
        }
    }

    // The terms of a query.
    pub fn terms(frame: &'a [u8]) -> Self
        ensures { result ≡ from_first first_term 0 frame.entry }
    {
        Cursors {
            frame,
            at: 8,
            tail: 0,
        }
    }
}

impl<'a> Iterator for Cursors<'a> {
    type Item = Cursor;

    ghost next_gives = { Goes };

    ghost remaining = { λ s. at_most (length s.frame.now - s.at) };

    #[tactic(auto, unfolding(crate::specs::Frames::past_field))]
    fn next(&mut self) -> Option<Cursor> {
        if self.frame.len() <= self.at {
            return None;
        }
        let c = Cursor { at: self.at };
        self.at += 1 + usize::from(self.frame[self.at]) + usize::from(self.tail);
        Some(c)
    }
}

// ---- the conditions

// Refusals 1 to 3, the same for every call.
#[tactic(auto, unfolding(crate::specs::Refusals::first_of, crate::specs::Frames::version, crate::specs::Frames::body_length, crate::specs::Frames::kind, crate::specs::Frames::wrong_version, crate::specs::Frames::wrong_length, crate::specs::Frames::wrong_kind, crate::specs::Frames::head_rows))]
fn check_head(frame: &[u8], kind: Kind) -> Result<(), Refusal>
    ensures { refused_under result ≡ first_of (head_rows (byte_of kind) frame.now) }
{
    if frame.len() < 4 || frame[0] != 1 {
        return Err(Refusal::WrongVersion);
    }
    let body = basics::pair(frame[1], frame[2]);
    if MAX_BODY < body || body != frame.len() - 3 {
        return Err(Refusal::WrongLength);
    }
    if Kind::try_from(frame[3]) != Ok(kind) {
        return Err(Refusal::WrongKind);
    }
    Ok(())
}

// Refusal 4: whether a field passes the frame's end.
fn passes_end(mut left: Cursors) -> bool
    requires { left.tail ≤ count_bytes }
    ensures { result ≡ passes_end left.entry.tail left.entry.frame.now left.entry.at }
{
    let frame = left.frame;
    let tail = usize::from(left.tail);
    left.any(|c| frame.len() < c.past(frame, tail).at)
}

// How many terms a query names.
fn count_terms(frame: &[u8]) -> usize
    ensures { result ≡ length (terms frame.now) }
{
    Cursors::terms(frame).count()
}

// Refusal 5: whether a field is not a term.
fn bad_term(mut left: Cursors) -> bool
    requires { passes_end left.tail left.frame.now left.at ≡ false }
    ensures { result ≡ bad_term left.entry.frame.now (fields left.entry.tail left.entry.frame.now left.entry.at) }
{
    let frame = left.frame;
    left.any(|c| !terms::is_term(c.term(frame)))
}

// Refusals 4 to 6 of a report in one pass, or how many lines there are. Folds each line's term into its place in
// `names`, and stores the hash of the folded term.
fn read_lines(frame: &[u8], names: &mut [u8], hashes: &mut [u32]) -> Result<usize, Refusal>
    requires short { length frame.now ≤ max_body + 3 }
    requires room { (max_body + 3 ≤ length names.old) × (max_lines ≤ length hashes.old) }
    ensures refused { refused_under result ≡ first_of (field_rows frame.now) }
    ensures count { IfOk result (λ n. n ≡ length (lines frame.now)) }
    ensures read { OnOk result (Read frame.now names.new hashes.new) }
{
    let table = FoldingTable::new();
    let mut n = 0;
    let mut bad = false;
    let mut zero = false;
    for c in Cursors::lines(frame) {
        if frame.len() < c.past(frame, 4).at {
            return Err(Refusal::WrongFields);
        }
        let line = c.fold(frame, &table, names);
        hashes[n] = line.hash;
        n += 1;
        bad |= !line.term;
        zero |= c.count(frame) == 0;
    }
    if bad {
        return Err(Refusal::BadTerm);
    }
    if zero {
        return Err(Refusal::ZeroCount);
    }
    Ok(n)
}

// Whether a line of the chain from `last` on has the folded term of the line at c.
fn in_chain(folded: FoldedFrame, earlier: &[u16; MAX_LINES], last: u16, c: Cursor) -> bool
    requires { Chained folded.frame.now folded.names.now earlier.now last × LineAt folded.frame.now folded.names.now c.at }
    ensures { result
        ≡ any (λ at. same (folded_at folded.entry.frame.now c.at) (folded_at folded.entry.frame.now at))
        (chain earlier.now last) }
{
    let mut at = usize::from(last);
    while at != 0 {
        let line = Cursor { at };
        if basics::same_bytes(c.name(folded), line.name(folded)) {
            return true;
        }
        at = usize::from(earlier[at / 5]);
    }
    false
}

// Refusal 7: whether two lines have one folded term. Lines are chained by the last byte of their hash, so that each is
// compared with few others.
fn repeated_term(folded: FoldedFrame, hashes: &[u32]) -> bool
    requires short { length folded.frame.now ≤ max_body + 3 }
    requires whole { passes_end count_bytes folded.frame.now first_line ≡ false }
    requires folds { Folds folded.frame.now folded.names.now first_line }
    requires hashed { hashes.now ≡ hashes_of folded.frame.now (lines folded.frame.now) }
    ensures { result ≡ repeated_term folded.entry.frame.now (lines folded.entry.frame.now) }
{
    let mut last = [0u16; 256];
    let mut earlier = [0u16; MAX_LINES];
    for (c, hash) in Cursors::lines(folded.frame).zip(hashes) {
        let bucket = (hash % 256) as usize;
        let latest = last[bucket];
        if in_chain(folded, &earlier, latest, c) {
            return true;
        }
        earlier[c.at / 5] = latest;
        last[bucket] = c.at as u16;
    }
    false
}

// ---- the checks

// A report's frame, or how many lines it has. Leaves the folded terms of its lines and their hashes to the caller, who
// looks the lines up by them.
#[tactic(auto, unfolding(crate::specs::Refusals::first_of, crate::specs::Frames::head_rows, crate::specs::Frames::field_rows, crate::specs::Frames::report_rows, crate::specs::Frames::report_refusal))]
pub fn read_report(frame: &[u8], names: &mut [u8], hashes: &mut [u32]) -> Result<usize, Refusal>
    requires { (max_body + 3 ≤ length names.old) × (max_lines ≤ length hashes.old) }
    ensures refused { refused_under result ≡ report_refusal frame.now }
    ensures count { IfOk result (λ n. n ≡ length (lines frame.now)) }
    ensures read { OnOk result (Read frame.now names.new hashes.new) }
{
    check_head(frame, Kind::Report)?;
    let count = read_lines(frame, names, hashes)?;
    let folded = FoldedFrame { frame, names };
    if repeated_term(folded, &hashes[..count]) {
        return Err(Refusal::RepeatedTerm);
    }
    Ok(count)
}

// The same for a caller that looks nothing up.
pub fn check_report(frame: &[u8]) -> Result<usize, Refusal>
    ensures refused { refused_under result ≡ report_refusal frame.now }
    ensures count { IfOk result (λ n. n ≡ length (lines frame.now)) }
{
    let mut names = [0u8; MAX_FRAME];
    let mut hashes = [0u32; MAX_LINES];
    read_report(frame, &mut names, &mut hashes)
}

// A query's frame of the given kind with at most `most` terms.
#[tactic(auto, unfolding(crate::specs::Refusals::first_of, crate::specs::Frames::wrong_terms, crate::specs::Frames::head_rows, crate::specs::Frames::query_rows, crate::specs::Frames::query_refusal, crate::specs::Frames::query_start))]
fn check_query(frame: &[u8], kind: Kind, most: usize) -> Result<Query, Refusal>
    ensures refused { refused_under result ≡ query_refusal (byte_of kind) most frame.now }
    ensures parts { IfOk result (λ q. IsQuery frame.now q) }
{
    check_head(frame, kind)?;
    if frame.len() < 8 || passes_end(Cursors::terms(frame)) {
        return Err(Refusal::WrongFields);
    }
    let n = count_terms(frame);
    if n == 0 || most < n {
        return Err(Refusal::WrongFields);
    }
    if bad_term(Cursors::terms(frame)) {
        return Err(Refusal::BadTerm);
    }
    Ok(Query {
        start: basics::read_word(frame, 4),
        terms: Cursor { at: 8 },
    })
}

// A listing of one term, kind 02.
pub fn check_one(frame: &[u8]) -> Result<Query, Refusal>
    ensures refused { refused_under result ≡ query_refusal 2 1 frame.now }
    ensures parts { IfOk result (λ q. IsQuery frame.now q) }
{
    check_query(frame, Kind::One, 1)
}

// A listing of all of 1 to 8 terms, kind 03.
pub fn check_all(frame: &[u8]) -> Result<Query, Refusal>
    ensures refused { refused_under result ≡ query_refusal 3 8 frame.now }
    ensures parts { IfOk result (λ q. IsQuery frame.now q) }
{
    check_query(frame, Kind::All, 8)
}
