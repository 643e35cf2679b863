// Terms: which bytes they may have, folding (document 01, "Frames"), and the hash by which they are found ("Finding a
// term").
#![tactic(auto)]

ghost use Rattle.std.specs.Prelude.{ℕ, ◌≡◌, true, ◌≤◌, ◌<◌, length, get_or};
ghost use Rattle.std.proofs.lemmas.List.Edits.{sets};
ghost use Rattle.terms.specs.Terms.{fold_byte, folded, is_term, mixed, fnv1a, judged_as};

mod name;

pub use name::{Folded, Name};

// The longest term.
pub const MAX_TERM: usize = 36;

// Whether bytes are a term, and FNV-1a of them folded.
#[derive(Clone, Copy)]
pub struct Judged {
    pub term: bool,
    pub hash: u32,
}

// The folding table, lent from where it stands to those who fold: a function that indexes the constant itself lays it
// out anew on its stack.
#[derive(Clone, Copy)]
pub struct FoldingTable {
    entries: &'static [u8; 256],
    ghost rule: { (b : ℕ) → b < 256 → get_or entries.now b 0 ≡ fold_byte b },
}

// The folded byte, or 0 where the byte is barred.
const FOLDED: [u8; 256] = [
    0, 0, 0, 0, 0, 0, 0, 0, 0, 0, 0, 0, 0, 0, 0, 0, 0, 0, 0, 0, 0, 0, 0, 0, 0, 0, 0, 0, 0, 0, 0, 0,
    0, // 20, barred
    33, // 21
    34, 35, 36, 37, 38, 39, 40, 41, 42, 43, 44, 45, 46, 47, 48, 49, 50, 51, 52, 53, 54, 55, 56, 57,
    58, 59, 60, 61, 62, 63, 64, // 40
    97, // A
    98, 99, 100, 101, 102, 103, 104, 105, 106, 107, 108, 109, 110, 111, 112, 113, 114, 115, 116,
    117, 118, 119, 120, 121, 122, // Z
    91, // 5B
    92, 93, 94, 95, 96, 97, 98, 99, 100, 101, 102, 103, 104, 105, 106, 107, 108, 109, 110, 111,
    112, 113, 114, 115, 116, 117, 118, 119, 120, 121, 122, 123, 124, 125, 126, // 7E
    0, // 7F, barred
    0, 0, 0, 0, 0, 0, 0, 0, 0, 0, 0, 0, 0, 0, 0, 0, 0, 0, 0, 0, 0, 0, 0, 0, 0, 0, 0, 0, 0, 0, 0, 0,
    0, 0, 0, 0, 0, 0, 0, 0, 0, 0, 0, 0, 0, 0, 0, 0, 0, 0, 0, 0, 0, 0, 0, 0, 0, 0, 0, 0, 0, 0, 0, 0,
    0, 0, 0, 0, 0, 0, 0, 0, 0, 0, 0, 0, 0, 0, 0, 0, 0, 0, 0, 0, 0, 0, 0, 0, 0, 0, 0, 0, 0, 0, 0, 0,
    0, 0, 0, 0, 0, 0, 0, 0, 0, 0, 0, 0, 0, 0, 0, 0, 0, 0, 0, 0, 0, 0, 0, 0, 0, 0, 0, 0, 0, 0, 0, 0, // FF, barred
];

// FNV-1a with 32 bits: where a hash begins, and the prime by which each byte multiplies it.
const START: u32 = 2166136261;

const PRIME: u32 = 16777619;

impl FoldingTable {
    #[tactic(auto, using(crate::proofs::Folding::rule))]
    pub fn new() -> Self {
        FoldingTable { entries: &FOLDED }
    }

    // A byte folded, or 0 where it is barred.
    fn entry_of(&self, b: u8) -> u8
        ensures { result ≡ fold_byte b }
    {
        self.entries[usize::from(b)]
    }
}

// Whether the bytes are a term.
#[tactic(auto, using(std::proofs::lemmas::Bool::Decides::nat_tests), unfolding(crate::specs::Terms::is_term))]
pub fn is_term(s: &[u8]) -> bool
    ensures { result ≡ is_term s.now }
{
    let table = FoldingTable::new();
    1 <= s.len() && s.len() <= MAX_TERM && s.iter().all(|b| table.entry_of(*b) != 0)
}

// One byte more into a hash.
#[tactic(auto, unfolding(crate::specs::Terms::mixed))]
fn mix(hash: u32, b: u8) -> u32
    ensures { result ≡ mixed hash b }
{
    (hash ^ u32::from(b)).wrapping_mul(PRIME)
}

// FNV-1a of the bytes as they stand.
#[tactic(auto, unfolding(crate::specs::Terms::fnv1a))]
pub fn fnv1a(s: &[u8]) -> u32
    ensures { result ≡ fnv1a s.now }
{
    s.iter().fold(START, |hash, b| mix(hash, *b))
}

// Folds bytes into the front of `into`, judges them and takes their hash, in one pass. A barred byte is folded to 0, so
// that the least folded byte tells whether there is one.
pub fn fold(s: &[u8], table: &FoldingTable, into: &mut [u8]) -> Judged
    requires { length s.now ≤ length into.old }
    ensures folded { into.new ≡ sets into.old 0 (folded s.now) }
    ensures judged { result ≡ judged_as s.now }
{
    let mut hash = START;
    let mut least = u8::MAX;
    for (i, b) in s.iter().enumerate() {
        let f = table.entry_of(*b);
        into[i] = f;
        least = least.min(f);
        hash = mix(hash, f);
    }
    Judged {
        term: 1 <= s.len() && s.len() <= MAX_TERM && 0 < least,
        hash,
    }
}
