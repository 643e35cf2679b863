// Adding up the postings of a block's part: where they end, the number that their gaps lead to, and how many they are.
// Most codes of a long chain have single bytes, and those are added up sixteen at a time.
#![tactic(auto)]

ghost use Rattle.std.specs.Prelude.{◌≡◌, IfSome, sum, ◌+◌, ◌≤◌, ◌<◌, length};
ghost use Rattle.sums.specs.Adding.{max_part, sum_of, added_to, Completes, Small};
ghost use Rattle.sums.specs.Rows.{is_second, gap_of, mark_of, gap_at, mark_at, lane, Lane, Rows};

// The offset behind the last posting, the number that the gaps lead to, whatever reports there are, and how many
// postings they are.
#[derive(Clone, Copy)]
pub struct Sum<N> {
    pub at: usize,
    pub number: N,
    pub postings: u32,
}

// Adds up the postings that start before offset `stop`, or those before one that is not sound.
#[tactic(auto, using(crate::proofs::Adding::by_posting))]
fn add_up(part: &[u8], from: Sum<u64>, stop: usize) -> Sum<u64>
    requires { (stop ≤ length part.now) × (length part.now ≤ max_part) × Small from }
    ensures { (result ≡ added_to part.now stop from) × Small result }
{
    let mut sum = from;
    while sum.at < stop {
        let Some(d) = postings::decode_at(part, sum.at) else {
            break;
        };
        sum.number += u64::from(d.gap);
        sum.at += d.length;
        sum.postings += 1;
    }
    sum
}

// ---- single bytes, sixteen at a time

// Whether a byte behind p and q is the second of a code.
#[tactic(auto, unfolding(crate::specs::Rows::is_second))]
fn is_second(q: u8, p: u8) -> bool
    ensures { result ≡ is_second q p }
{
    q % 4 == 0 && p % 4 != 0
}

// What byte b behind p and q adds to the gaps: nothing where it is the second byte of a code.
#[tactic(auto, unfolding(crate::specs::Rows::gap_of))]
fn gap_of(b: u8, q: u8, p: u8) -> u8
    ensures { result ≡ gap_of b q p }
{
    if is_second(q, p) { 0 } else { b.div_ceil(4) }
}

// What it adds to the number of postings: 1 where it starts a code, and 64, more than the rows have, where it does not
// fit.
#[tactic(auto, unfolding(crate::specs::Rows::mark_of, crate::specs::Rows::is_fit, crate::specs::Rows::is_second))]
fn mark_of(b: u8, q: u8, p: u8) -> u8
    ensures { result ≡ mark_of b q p }
{
    let starts = if is_second(q, p) { 0 } else { 1 };
    let fits = 0 < b && b < 128 && (b % 4 != 0 || q % 4 != 0 || p % 4 != 0);
    if fits { starts } else { 64 }
}

// The bytes at one place of the three rows together, for each of the sixteen places.
#[derive(Clone, Copy)]
pub struct Lanes {
    pub gaps: [u8; 16],
    pub marks: [u8; 16],
}

// The lanes of a window: two bytes, and the three rows behind them. A turn is the same for all places and takes nothing
// over from the turn before: so the compiler makes one of all sixteen. With the three bytes of a row read in a function
// of their own it does not.
#[tactic(auto, using(crate::proofs::Bytes::gap_le, crate::proofs::Bytes::mark_le))]
fn lanes_of(window: &[u8]) -> Lanes
    requires { length window.now ≡ 50 }
    ensures { Lane (gap_at window.now) result.gaps × Lane (mark_at window.now) result.marks }
{
    let mut gaps = [0u8; 16];
    let mut marks = [0u8; 16];
    for i in 0..16 {
        let p = window[i];
        let q = window[i + 1];
        let b = window[i + 2];
        let p2 = window[i + 16];
        let q2 = window[i + 17];
        let b2 = window[i + 18];
        let p3 = window[i + 32];
        let q3 = window[i + 33];
        let b3 = window[i + 34];
        gaps[i] = gap_of(b, q, p) + gap_of(b2, q2, p2) + gap_of(b3, q3, p3);
        marks[i] = mark_of(b, q, p) + mark_of(b2, q2, p2) + mark_of(b3, q3, p3);
    }
    Lanes { gaps, marks }
}

fn total_of(lanes: &[u8; 16]) -> u32
    ensures { result ≡ sum lanes.now }
{
    lanes.iter().map(|n| u32::from(*n)).sum()
}

// What three rows add up to.
#[derive(Clone, Copy)]
pub struct RowSum {
    pub gaps: u32,
    pub postings: u32,
}

// How many bytes three rows have.
const ROWS: usize = 48;

// The rows from offset `at` on, where they are codes of single bytes. By the look of the two bytes before it a code
// starts there, and the last byte leaves none open: a byte behind it would be no second one.
fn read_rows(part: &[u8], at: usize) -> Option<RowSum>
    ensures { IfSome result (λ r. Rows part.now at r) }
{
    if at < 2 || part.len().saturating_sub(at) < ROWS {
        return None;
    }
    let window = &part[at - 2..at + ROWS];
    if is_second(window[1], window[0]) || is_second(window[49], window[48]) {
        return None;
    }
    let lanes = lanes_of(window);
    let postings = total_of(&lanes.marks);
    let gaps = total_of(&lanes.gaps);
    // more than one for each byte: one of them does not fit
    if 48 < postings {
        return None;
    }
    Some(RowSum { gaps, postings })
}

// Adds up posting by posting to `stop`, and from there on by rows, as long as they can be told.
#[tactic(auto, using(crate::proofs::Adding::by_part))]
fn add_rows(part: &[u8], from: Sum<u64>, stop: usize) -> Sum<u64>
    requires { (stop ≤ length part.now) × (length part.now ≤ max_part) × Small from }
    ensures { Completes part.now (length part.now) from result × Small result }
{
    // a sum of its own, which stays in registers while rows are added
    let front = add_up(part, from, stop);
    let mut sum = front;
    while let Some(rows) = read_rows(part, sum.at) {
        sum.at += ROWS;
        sum.number += u64::from(rows.gaps);
        sum.postings += rows.postings;
    }
    sum
}

// Adds up all postings of a part from offset `at` on, behind the posting of that number: by rows, from the first code
// that has two bytes between `at` and itself. The posting before `at` may be a block's first, and the two bytes of its
// large b-gap may look as if a code were still open. Where rows cannot be told their bytes are added up posting by
// posting, and then rows again. Fewer bytes than rows have are left in the end, and added up posting by posting too.
pub fn add_all(part: &[u8], at: usize, number: u32) -> Sum<u64>
    requires { length part.now ≤ max_part }
    ensures { result ≡ added_to part.now (length part.now) (sum_of at number) }
{
    let n = part.len();
    let mut sum = Sum {
        at,
        number: u64::from(number),
        postings: 0,
    };
    let mut stop = at.saturating_add(2);
    while ROWS <= n.saturating_sub(sum.at) {
        sum = add_rows(part, sum, stop);
        // where no posting is decoded the sum is whole
        if sum.at < stop {
            break;
        }
        stop = sum.at.saturating_add(ROWS);
    }
    add_up(part, sum, n)
}
