// A folded term as it is looked up.

ghost use Rattle.std.specs.Prelude.{◌≡◌, ◌≤◌, length, take};
ghost use Rattle.terms.specs.Terms.{max_term, folded, fnv1a};

use crate::{FoldingTable, MAX_TERM, fold};

// A folded term with its hash.
#[derive(Clone, Copy)]
pub struct Name<'a> {
    pub bytes: &'a [u8],
    pub hash: u32,
    ghost short: { length bytes.now ≤ max_term },
    ghost hashed: { hash ≡ fnv1a bytes.now },
}

// The bytes of a term, folded into room for the longest one, and their hash.
#[derive(Clone, Copy)]
pub struct Folded {
    bytes: [u8; MAX_TERM],
    length: usize,
    hash: u32,
    ghost fits: { length ≤ max_term },
    ghost hashed: { hash ≡ fnv1a (take length bytes) },
}

impl Folded {
    ghost use Rattle.terms.specs.Folded.{folded_bytes};

    #[tactic(auto, using(crate::proofs::Laws::folded_front, crate::proofs::Laws::judged_hash))]
    pub fn new(term: &[u8]) -> Self
        requires { length term.now ≤ max_term }
        ensures { folded_bytes result ≡ folded term.now }
    {
        let mut bytes = [0; MAX_TERM];
        let judged = fold(term, &FoldingTable::new(), &mut bytes);
        Folded {
            bytes,
            length: term.len(),
            hash: judged.hash,
        }
    }

    pub fn name(&self) -> Name<'_>
        ensures { result.bytes.now ≡ folded_bytes self.now }
    {
        Name {
            bytes: &self.bytes[..self.length],
            hash: self.hash,
        }
    }
}
