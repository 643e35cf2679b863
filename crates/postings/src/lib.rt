// Double-VByte with threshold 4: a posting's gap and count as one or two values, each seven bits at a time, lowest
// first.
//
//     a byte                         | another follows: 1 | seven bits of the value: 7 |
//
//     count below 4: one value       | gap - 1                              | count: 2 |
//     count from 4 on: two values    | gap                                  | 0 0      |   then   | count - 3 |
//
// A value of 0 is never coded, so that a null byte stands in no code, and the last two bits of the first value tell
// which of the two it is.
#![tactic(auto)]

ghost use Rattle.std.specs.Prelude.{◌≡◌, ℕ, IfSome, ◌+◌, ◌-◌, ◌≤◌, ◌<◌, ◌^◌, length, drop};
ghost use Rattle.std.proofs.lemmas.List.Edits.{sets};
ghost use Rattle.postings.specs.Coding.{max_gap, counted, vbyte, code, code_length, value, at_most, decoded};
ghost use Rattle.postings.specs.Claims.{RoundTrips, Shares, NotConstant};

// How far a report is from the last one in the chain. A d-gap and a b-gap are two sorts of distance, so that one that
// counts from one report is not stored or read where the other is meant.
#[derive(Clone, Copy)]
pub struct DGap(pub u32);

// How far a block's first report is from the first report of the block before.
#[derive(Clone, Copy)]
pub struct BGap(pub u32);

// The number that lies so many steps behind an earlier one, where it is not over reports.
fn counted(reports: u32, earlier: u32, steps: u32) -> Option<u32>
    ensures { result ≡ counted reports earlier steps }
{
    if reports < earlier || reports - earlier < steps {
        return None;
    }
    Some(earlier + steps)
}

impl DGap {
    pub fn between(last: u32, number: u32) -> Self
        requires { last < number }
        ensures { result.0 ≡ number - last }
    {
        DGap(number - last)
    }

    // The report that stands so far behind the last one.
    pub fn from_last(self, last: u32, reports: u32) -> Option<u32>
        ensures { result ≡ counted reports last self.0 }
    {
        counted(reports, last, self.0)
    }

    // The same where it is known not to be over reports, as in a chain that was read whole.
    pub fn behind(self, last: u32) -> u32
        requires { last + self.0 ≤ max_gap }
        ensures { result ≡ last + self.0 }
    {
        last + self.0
    }
}

impl BGap {
    pub fn between(first: u32, number: u32) -> Self
        requires { first < number }
        ensures { result.0 ≡ number - first }
    {
        BGap(number - first)
    }

    // The report that stands so far behind the first one of the block before.
    pub fn from_first(self, first: u32, reports: u32) -> Option<u32>
        ensures { result ≡ counted reports first self.0 }
    {
        counted(reports, first, self.0)
    }
}

// The longest code of a posting: two values of five bytes.
pub const MAX_CODE: usize = 10;

// A value at the front of some bytes, and how many of them it takes.
#[derive(Clone, Copy)]
pub struct Value {
    pub value: u64,
    pub length: usize,
}

// A posting at the front of some bytes, and how many of them it takes.
#[derive(Clone, Copy)]
pub struct Decoded {
    pub gap: u32,
    pub count: u32,
    pub length: usize,
}

// Which sort its gap is of depends on where it stands.
impl Decoded {
    // Behind another posting of its block.
    pub fn d_gap(self) -> DGap
        ensures { result.0 ≡ self.gap }
    {
        DGap(self.gap)
    }

    // At the block's start.
    pub fn b_gap(self) -> BGap
        ensures { result.0 ≡ self.gap }
    {
        BGap(self.gap)
    }
}

// How many bytes code a value, by its length in bits.
const CODE_LENGTHS: [u8; 35] = [
    1, // 0 bits
    1, 1, 1, 1, 1, 1, 1, // 7 bits
    2, 2, 2, 2, 2, 2, 2, // 14 bits
    3, 3, 3, 3, 3, 3, 3, // 21 bits
    4, 4, 4, 4, 4, 4, 4, // 28 bits
    5, 5, 5, 5, 5, 5, // 34 bits
];

fn code_length(bits: usize) -> usize
    requires { bits < 35 }
    ensures { result ≡ code_length bits }
{
    usize::from(CODE_LENGTHS[bits])
}

// How many bytes code a value.
fn value_length(v: u64) -> usize
    requires { v < 2 ^ 34 }
    ensures { result ≡ length (vbyte v) }
{
    code_length((64 - u64::leading_zeros(v)) as usize)
}

// How many bytes code a posting.
#[tactic(auto, using(crate::proofs::Codes::coded))]
pub fn posting_length(gap: u32, count: u32) -> usize
    requires { 0 < gap }
    ensures { result ≡ length (code gap count) }
{
    let g = u64::from(gap);
    let f = u64::from(count);
    if f < 4 {
        value_length((g - 1) * 4 + f)
    } else {
        value_length(g * 4) + value_length(f - 3)
    }
}

// Writes the code of a value from `at` on, and returns the offset past it.
fn put_value(s: &mut [u8], at: usize, v: u64) -> usize
    requires { at + length (vbyte v) ≤ length s.old }
    ensures { (result ≡ at + length (vbyte v)) × (s.new ≡ sets s.old at (vbyte v)) }
{
    let mut n = v;
    let mut i = at;
    while 128 <= n {
        s[i] = (128 + n % 128) as u8;
        n /= 128;
        i += 1;
    }
    s[i] = n as u8;
    i + 1
}

// Writes a posting from `at` on, and returns the offset past it.
#[tactic(auto, using(crate::proofs::Codes::coded))]
pub fn put_posting(s: &mut [u8], at: usize, gap: u32, count: u32) -> usize
    requires { (0 < gap) × (at + length (code gap count) ≤ length s.old) }
    ensures { (result ≡ at + length (code gap count)) × (s.new ≡ sets s.old at (code gap count)) }
{
    let g = u64::from(gap);
    let f = u64::from(count);
    if f < 4 {
        put_value(s, at, (g - 1) * 4 + f)
    } else {
        let next = put_value(s, at, g * 4);
        put_value(s, next, f - 3)
    }
}

// The value at the front of s, where it is at most `most`.
fn read_value(s: &[u8], most: u64) -> Option<Value>
    requires { most < 2 ^ 35 }
    ensures is { result ≡ at_most most (value s.now) }
    ensures within { IfSome result (λ n. (n.value ≤ most) × (n.length ≤ length s.now)) }
{
    let mut v: u64 = 0;
    let mut weight: u64 = 1;
    for (i, b) in s.iter().enumerate() {
        let b = u64::from(*b);
        if b < 128 {
            let value = v + b * weight;
            return (0 < b && value <= most).then_some(Value {
                value,
                length: i + 1,
            });
        }
        // a sixth byte would take the value past 35 bits
        if i == 4 {
            return None;
        }
        v += (b - 128) * weight;
        weight *= 128;
    }
    None
}

// The largest first and second value of a posting, whose gap and count have 32 bits.
const MAX_FIRST: u64 = 4 * (u32::MAX as u64);

const MAX_SECOND: u64 = (u32::MAX as u64) - 3;

// The posting at the front of s, of any length. It is a call of its own, so that decode_at stays short enough to be taken
// into the loops that call it.
#[inline(never)]
#[tactic(auto, unfolding(crate::specs::Coding::decoded, crate::specs::Coding::first, crate::specs::Coding::second))]
fn decode_long(s: &[u8]) -> Option<Decoded>
    ensures { result ≡ decoded s.now }
{
    let first = read_value(s, MAX_FIRST)?;
    let count = first.value % 4;
    if 0 < count {
        return Some(Decoded {
            gap: (first.value / 4 + 1) as u32,
            count: count as u32,
            length: first.length,
        });
    }
    let second = read_value(&s[first.length..], MAX_SECOND)?;
    Some(Decoded {
        gap: (first.value / 4) as u32,
        count: (second.value + 3) as u32,
        length: first.length + second.length,
    })
}

// The posting that stands in s from `at` on. Most postings take one byte or two: these are read without a call, from
// the bytes as they stand.
#[tactic(auto, using(crate::proofs::Codes::at_one, crate::proofs::Codes::at_two, crate::proofs::Codes::at_pair))]
pub fn decode_at(s: &[u8], at: usize) -> Option<Decoded>
    requires { at < length s.now }
    ensures { result ≡ decoded (drop at s.now) }
{
    let b = u32::from(s[at]);
    let f = b % 4;
    if 0 < f {
        if b < 128 {
            return Some(Decoded {
                gap: b / 4 + 1,
                count: f,
                length: 1,
            });
        }
        if at + 1 < s.len() {
            let d = u32::from(s[at + 1]);
            if 0 < d && d < 128 {
                return Some(Decoded {
                    gap: (b - 128 + 128 * d) / 4 + 1,
                    count: f,
                    length: 2,
                });
            }
        }
    } else {
        // 4 divides the value: a second one gives the count
        if 0 < b && b < 128 && at + 1 < s.len() {
            let d = u32::from(s[at + 1]);
            if 0 < d && d < 128 {
                return Some(Decoded {
                    gap: b / 4,
                    count: d + 3,
                    length: 2,
                });
            }
        }
    }
    decode_long(&s[at..])
}

// The posting at the front of s.
#[tactic(auto, using(crate::proofs::Codes::decoded_none))]
pub fn decode(s: &[u8]) -> Option<Decoded>
    ensures { result ≡ decoded s.now }
{
    if s.is_empty() {
        return None;
    }
    decode_at(s, 0)
}

// Decoding undoes coding and coding undoes decoding; counts below 4 share a value; no constant code has a decoder. A
// contract, so that the gate fails without it.
#[tactic(auto, using(crate::proofs::Codes::code_low, crate::proofs::Codes::code_high))]
pub fn codes_round_trip()
    ensures round_trips { RoundTrips }
    ensures shares { Shares code }
    ensures not_constant { NotConstant }
{}
