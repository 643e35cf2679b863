// Going on in a block's part, in a chain that was read whole before.

ghost use Rattle.std.specs.Prelude.{◌≤◌, length};
ghost use Rattle.sums.specs.Adding.{Bounded};
ghost use Rattle.blocks.specs.Fields.{max_word};
ghost use Rattle.chains.specs.Chains.{part_end};

use crate::{Cursor, moved, part_bytes, part_end};

// A report of the chain, and the count there.
#[derive(Clone, Copy)]
pub struct Posting {
    pub number: u32,
    pub count: u32,
}

// A place behind one of the postings of a block's part: the bytes of the part that are left, and the number of that
// posting. The block and its part's end are those of the cursor where it began. No number that is left is over 32 bits,
// so that none is judged again.
#[derive(Clone, Copy)]
pub struct Part<'a> {
    bytes: &'a [u8],
    from: Cursor,
    pub number: u32,
    ghost within: { length bytes.now ≤ part_end from from.block },
    ghost known: { Bounded bytes.now max_word 0 number },
}

impl<'a> Part<'a> {
    ghost use Rattle.std.specs.Prelude.{ℕ, ◌≡◌};
    ghost use Rattle.chains.specs.Parts.{InPart, Known};
    ghost use Rattle.chains.specs.Going.{place_of, Walks, Goes};

    // The part of the cursor's block, from the cursor on.
    #[tactic(auto, using(crate::proofs::Steps::part_end_le))]
    pub fn new(arena: &'a [u8], c: Cursor) -> Self
        requires { InPart arena.now max_word c × Known arena.now max_word c }
        ensures place { place_of result ≡ c }
        ensures walks { (reports : ℕ) → InPart arena.entry.now reports c → Known arena.entry.now reports c → Walks arena.entry.now reports result }
    {
        Part {
            bytes: part_bytes(arena, c),
            from: c,
            number: c.number,
        }
    }

    // The cursor there.
    pub fn place(self) -> Cursor
        ensures { result ≡ place_of self.entry }
    {
        moved(
            self.from,
            part_end(self.from) - self.bytes.len(),
            self.number,
        )
    }

    // One posting after another: none at the part's end, nor where no posting stands.
    #[tactic(auto, using(crate::proofs::Parts::bounded_next, sums::proofs::Adding::bounded_here, crate::proofs::Steps::decoded_ends))]
    pub fn next(&mut self) -> Option<Posting>
        ensures { Goes self.old result self.new }
    {
        let d = postings::decode(self.bytes)?;
        self.bytes = &self.bytes[d.length..];
        self.number = d.d_gap().behind(self.number);
        Some(Posting {
            number: self.number,
            count: d.count,
        })
    }
}
