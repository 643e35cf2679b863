// The desk program: reads frames from standard input and writes one line for each. The lines for a whole input are
// `desk_output` of specs/Desk.antt; the functions here are proved against it up to the calls that read and write.
#![tactic(auto)]

ghost use Rattle.std.specs.Prelude.{◌≡◌, ◌+◌, ◌-◌, ◌*◌, ◌≤◌, ◌<◌, [], ◌∷◌, length, get_or, take, drop};
ghost use Rattle.std.specs.Prelude.{Some, None, IfSome, option_map};
ghost use Rattle.frames.specs.Frames.{body_length};
ghost use Rattle.counters.specs.Counters.{memory};
ghost use Rattle.refusals.specs.Numbers.{number_of};
ghost use Rattle.desk.specs.Text.{
  decimal,
  numbered,
  report_line,
  pair_text,
  pairs_text,
  place_text,
  places_text,
  end_text,
  list_line,
};
ghost use Rattle.desk.specs.Desk.{kind_of, other_refusal, answered, answered_as, frame_length, overlong};
ghost use Rattle.desk.specs.Needs.{
  Puts,
  Answers,
  Settles,
  Turns,
  Reads,
  longest_line,
  filled_text,
  ready_length,
  waiting_for,
};
ghost use Rattle.desk.specs.Claims.{LastRefused, TellsLedger, ExamplePrinted};

use counters::Counters;
use frames::{Kind, MAX_BODY};
use ingest::ReportAnswer;
use query::ListAnswer;
use refusals::Refusal;
use std::io::{self, Read};

// The counters after a frame, and where its line ends in the output.
#[derive(Clone, Copy)]
struct Answer {
    counters: Counters,
    end: usize,
}

// What is to be done next: go on with the bytes at hand, read more, or end.
#[derive(Clone, Copy)]
enum Next {
    Settle,
    Read,
    Stop,
}

// How far some frames at the front of the bytes at hand were answered.
#[derive(Clone, Copy)]
struct Settled {
    next: Next,
    counters: Counters,
    taken: usize,
    written: usize,
}

// ---- text

fn put_byte(out: &mut [u8], at: usize, b: u8) -> usize
    requires { at < length out.old }
    ensures { Puts 1 out.old at (b ∷ []) result out.new }
{
    out[at] = b;
    at + 1
}

// The digits of a number: those of its tens, then the last.
fn put_number(out: &mut [u8], at: usize, n: u32) -> usize
    requires { at + 10 ≤ length out.old }
    ensures { Puts 10 out.old at (decimal n) result out.new }
{
    if n < 10 {
        return put_byte(out, at, b'0' + n as u8);
    }
    let end = put_number(out, at, n / 10);
    put_byte(out, end, b'0' + (n % 10) as u8)
}

// A letter and a number on a line.
fn put_numbered(out: &mut [u8], at: usize, letter: u8, n: u32) -> usize
    requires { at + 13 ≤ length out.old }
    ensures { Puts 13 out.old at (numbered letter n) result out.new }
{
    let a = put_byte(out, at, letter);
    let b = put_byte(out, a, b' ');
    let c = put_number(out, b, n);
    put_byte(out, c, b'\n')
}

#[tactic(auto, unfolding(crate::specs::Text::report_line))]
fn put_report(out: &mut [u8], at: usize, a: ReportAnswer) -> usize
    requires { at + 13 ≤ length out.old }
    ensures { Puts 13 out.old at (report_line a) result out.new }
{
    if a.refusal == 0 {
        return put_numbered(out, at, b'R', a.number);
    }
    put_numbered(out, at, b'E', u32::from(a.refusal))
}

// One place of a listing of kind 03.
#[tactic(auto, using(crate::proofs::Texts::puts_then), unfolding(crate::specs::Text::place_text))]
fn put_place(out: &mut [u8], at: usize, number: u32) -> usize
    requires { at + 11 ≤ length out.old }
    ensures { Puts 11 out.old at (place_text number) result out.new }
{
    let a = put_byte(out, at, b' ');
    put_number(out, a, number)
}

// One place of a listing of kind 02.
fn put_pair(out: &mut [u8], at: usize, number: u32, count: u32) -> usize
    requires { at + 22 ≤ length out.old }
    ensures { Puts 22 out.old at (pair_text number count) result out.new }
{
    let a = put_byte(out, at, b' ');
    let b = put_number(out, a, number);
    let c = put_byte(out, b, b':');
    put_number(out, c, count)
}

fn put_places(out: &mut [u8], at: usize, numbers: &[u32]) -> usize
    requires { at + 11 * length numbers.now ≤ length out.old }
    ensures { Puts (11 * length numbers.now) out.old at (places_text numbers.now) result out.new }
{
    let mut end = at;
    for number in numbers {
        end = put_place(out, end, *number);
    }
    end
}

fn put_pairs(out: &mut [u8], at: usize, numbers: &[u32], counts: &[u32]) -> usize
    requires { (at + 22 * length numbers.now ≤ length out.old) × (length numbers.now ≡ length counts.now) }
    ensures { Puts (22 * length numbers.now) out.old at (pairs_text numbers.now counts.now) result out.new }
{
    let mut end = at;
    for (number, count) in numbers.iter().zip(counts) {
        end = put_pair(out, end, *number, *count);
    }
    end
}

// The end of a result line.
fn put_end(out: &mut [u8], at: usize, more: bool) -> usize
    requires { at + 3 ≤ length out.old }
    ensures { Puts 3 out.old at (end_text more) result out.new }
{
    if more {
        let a = put_byte(out, at, b' ');
        let b = put_byte(out, a, b'+');
        return put_byte(out, b, b'\n');
    }
    put_byte(out, at, b'\n')
}

// The line of a listing: its refusal, or `Q`, the places that were filled, with their counts where there are any, and
// the end.
#[tactic(auto, unfolding(crate::specs::Text::list_line))]
fn put_listing(
    out: &mut [u8],
    at: usize,
    a: ListAnswer,
    numbers: &[u32],
    counts: Option<&[u32]>,
) -> usize
    requires room { at + longest_line ≤ length out.old }
    requires few { a.filled ≤ 16 }
    requires listed { a.filled ≤ length numbers.now }
    requires counted { IfSome counts (λ c. a.filled ≤ length c.now) }
    ensures { let places = filled_text a.filled numbers.now (option_map (λ c. c.now) counts.entry) in
        Puts longest_line out.old at (list_line a places) result out.new }
{
    if a.refusal != 0 {
        return put_numbered(out, at, b'E', u32::from(a.refusal));
    }
    let n = a.filled as usize;
    let b = put_byte(out, at, b'Q');
    let c = match counts {
        Some(counts) => put_pairs(out, b, &numbers[..n], &counts[..n]),
        None => put_places(out, b, &numbers[..n]),
    };
    put_end(out, c, a.more)
}

// ---- one frame

// The byte at an offset, 0 behind the end.
fn byte_at(s: &[u8], i: usize) -> u8
    ensures { result ≡ get_or s.now i 0 }
{
    s.get(i).copied().unwrap_or(0)
}

// The call that a frame's kind asks for, if any.
#[tactic(auto, unfolding(frames::specs::Frames::kind, crate::specs::Desk::kind_of))]
fn kind_of(frame: &[u8]) -> Option<Kind>
    ensures { result ≡ kind_of frame.now }
{
    Kind::try_from(*frame.get(3)?).ok()
}

// A report.
#[tactic(auto, unfolding(crate::specs::Desk::answered_as, ingest::specs::Report::taken_of))]
fn answer_report(
    arena: &mut [u8],
    table: &mut [u32],
    k: Counters,
    frame: &[u8],
    out: &mut [u8],
    at: usize,
) -> Answer
    requires { at + longest_line ≤ length out.old }
    ensures { Answers (answered_as (Some Kind.Report) (memory arena.old table.old k) frame.now) out.old at result
        (memory arena.new table.new result.counters) out.new }
{
    let taken = ingest::take_report(arena, table, k, frame);
    Answer {
        counters: taken.counters,
        end: put_report(out, at, taken.answer),
    }
}

// A listing of one term.
#[tactic(auto, using(query::proofs::Bounds::one_bound), unfolding(crate::specs::Desk::answered_as, crate::specs::Text::one_line))]
fn answer_one(
    arena: &[u8],
    table: &[u32],
    k: Counters,
    frame: &[u8],
    out: &mut [u8],
    at: usize,
) -> usize
    requires { at + longest_line ≤ length out.old }
    ensures { let a = answered_as (Some Kind.One) (memory arena.now table.now k) frame.now in
        Puts longest_line out.old at a.line result out.new }
{
    let mut numbers = [0u32; 16];
    let mut counts = [0u32; 16];
    let a = query::list_one(arena, table, k, frame, &mut numbers, &mut counts);
    put_listing(out, at, a, &numbers, Some(&counts))
}

// A listing of all of 1 to 8 terms.
#[tactic(auto, using(query::proofs::Bounds::all_bound), unfolding(crate::specs::Desk::answered_as, crate::specs::Text::all_line))]
fn answer_all(
    arena: &[u8],
    table: &[u32],
    k: Counters,
    frame: &[u8],
    out: &mut [u8],
    at: usize,
) -> usize
    requires { at + longest_line ≤ length out.old }
    ensures { let a = answered_as (Some Kind.All) (memory arena.now table.now k) frame.now in
        Puts longest_line out.old at a.line result out.new }
{
    let mut numbers = [0u32; 16];
    let a = query::list_all(arena, table, k, frame, &mut numbers);
    put_listing(out, at, a, &numbers, None)
}

// The refusal of a kind that no call has: reading the frame as a report finds it.
fn other_refusal(frame: &[u8]) -> Refusal
    requires { kind_of frame.now ≡ None }
    ensures { number_of result ≡ other_refusal frame.now }
{
    match frames::check_report(frame) {
        Err(refusal) => refusal,
        Ok(_) => Refusal::WrongKind,
    }
}

// A frame: the call of its kind, and its line from `at` on.
fn answer_frame(
    arena: &mut [u8],
    table: &mut [u32],
    k: Counters,
    frame: &[u8],
    out: &mut [u8],
    at: usize,
) -> Answer
    requires { at + longest_line ≤ length out.old }
    ensures { Answers (answered (memory arena.old table.old k) frame.now) out.old at result
        (memory arena.new table.new result.counters) out.new }
{
    match kind_of(frame) {
        Some(Kind::Report) => answer_report(arena, table, k, frame, out, at),
        Some(Kind::One) => Answer {
            counters: k,
            end: answer_one(arena, table, k, frame, out, at),
        },
        Some(Kind::All) => Answer {
            counters: k,
            end: answer_all(arena, table, k, frame, out, at),
        },
        None => {
            let refusal = u8::from(other_refusal(frame));
            Answer {
                counters: k,
                end: put_numbered(out, at, b'E', u32::from(refusal)),
            }
        }
    }
}

// ---- the input

// The length that a frame's second and third byte give its body.
#[tactic(auto, unfolding(frames::specs::Frames::body_length))]
fn body_length(s: &[u8]) -> usize
    ensures { (result ≡ body_length s.now) × (result < 65536) }
{
    basics::pair(byte_at(s, 1), byte_at(s, 2))
}

#[tactic(auto, unfolding(crate::specs::Desk::overlong))]
fn is_overlong(s: &[u8]) -> bool
    ensures { result ≡ overlong s.now }
{
    MAX_BODY < body_length(s)
}

#[tactic(auto, unfolding(crate::specs::Desk::frame_length))]
fn frame_length(s: &[u8]) -> usize
    ensures { result ≡ frame_length s.now }
{
    if is_overlong(s) {
        return 4;
    }
    3 + body_length(s)
}

// How many bytes at the front can be judged now, if any.
#[tactic(auto, unfolding(crate::specs::Needs::ready_length))]
fn ready_length(s: &[u8], ended: bool) -> Option<usize>
    ensures { result ≡ ready_length ended s.now }
{
    let n = frame_length(s);
    if n <= s.len() {
        return Some(n);
    }
    (ended && !s.is_empty()).then_some(s.len())
}

// Where no frame can be judged: the end, or a read.
fn waiting(ended: bool) -> Next
    ensures { result ≡ waiting_for ended }
{
    if ended { Next::Stop } else { Next::Read }
}

// Answers the frames at the front of the bytes at hand, as long as the output has room for a line, which takes at most
// 356 bytes.
fn settle(
    arena: &mut [u8],
    table: &mut [u32],
    k: Counters,
    input: &[u8],
    ended: bool,
    out: &mut [u8],
) -> Settled
    ensures { Settles (memory arena.old table.old k) input.now ended out.old result
        (memory arena.new table.new result.counters) out.new }
{
    let mut counters = k;
    let mut taken: usize = 0;
    let mut written: usize = 0;
    while written + 356 <= out.len() {
        let rest = &input[taken..];
        let Some(n) = ready_length(rest, ended) else {
            return Settled {
                next: waiting(ended),
                counters,
                taken,
                written,
            };
        };
        let a = answer_frame(arena, table, counters, &rest[..n], out, written);
        counters = a.counters;
        written = a.end;
        taken += n;
        if is_overlong(rest) {
            return Settled {
                next: Next::Stop,
                counters,
                taken,
                written,
            };
        }
    }
    Settled {
        next: Next::Settle,
        counters,
        taken,
        written,
    }
}

// Answers what can be answered of the bytes that are held, and moves those that are left to the front of the buffer.
fn take_turn(
    arena: &mut [u8],
    table: &mut [u32],
    k: Counters,
    input: &mut [u8],
    held: usize,
    ended: bool,
    out: &mut [u8],
) -> Settled
    requires { held ≤ length input.old }
    ensures { Turns (memory arena.old table.old k) (take held input.old) ended out.old result
        (memory arena.new table.new result.counters) input.new out.new }
{
    let s = settle(arena, table, k, &input[..held], ended, out);
    input.copy_within(s.taken..held, 0);
    s
}

// Reads once, behind the bytes that are held. There is room for a byte, so nothing read means the end.
fn read_more(rt: &HostRuntime, input: &mut [u8], held: usize) -> io::Result<usize>
    requires { held < length input.old }
    ensures { Reads input.old held result input.new }
{
    rt.stdin().read(&mut input[held..])
}

// ---- the program

fn complain(rt: &impl Eprint, text: &str) {
    let _ = rt.eprintln(text);
}

// Writes lines, and complains where they cannot be written.
fn print(rt: &(impl Print + Eprint), text: &[u8]) -> io::Result<()> {
    rt.write_all(text)
        .inspect_err(|_| complain(rt, "desk: cannot write the answers"))
}

// Pinned as contracts, so that the gate fails without them: the frame that ends the program is refused under 1 or 2,
// the whole output is the one that the plain ledger gives, and for document 01's example that is what it prints there.
fn claims_hold()
    ensures last_refused { LastRefused }
    ensures tells_ledger { TellsLedger }
    ensures example { ExamplePrinted }
{}

// Turn after turn: the lines are written and more is read, until the input ends or a frame stops the program. A proved
// loop has to end, and nothing says that the input does: so the turns are counted, up to a number that no run reaches.
fn main(rt: HostRuntime) {
    let mut arena = [0u8; 64000];
    let mut table = [0u32; 512];
    let mut input = [0u8; 65536];
    let mut out = [0u8; 65536];
    let mut counters = Counters::default();
    let mut held: usize = 0;
    let mut ended = false;
    'turns: for _ in 0..u64::MAX {
        let t = take_turn(
            &mut arena, &mut table, counters, &mut input, held, ended, &mut out,
        );
        if print(&rt, &out[..t.written]).is_err() {
            return;
        }
        counters = t.counters;
        held -= t.taken;
        match t.next {
            Next::Stop => return,
            Next::Settle => {}
            Next::Read => match read_more(&rt, &mut input, held) {
                Ok(0) => ended = true,
                Ok(n) => held += n,
                Err(_) => {
                    complain(&rt, "desk: cannot read the frames");
                    return;
                }
            },
        }
    }
}
