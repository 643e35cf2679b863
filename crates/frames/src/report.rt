// The lines of a report that is not refused.

ghost use Rattle.std.specs.Prelude.{◌≡◌, IfOk, false, ◌+◌, ◌≤◌, length};
ghost use Rattle.frames.specs.Frames.{
  max_body,
  count_bytes,
  first_line,
  fields,
  lines,
  passes_end,
  bad_term,
  report_refusal,
};
ghost use Rattle.frames.specs.Read.{Folds, max_lines, hashes_of};
ghost use Rattle.std.specs.Iterator.{at_most};
ghost use Rattle.refusals.specs.Numbers.{refused_under};

use crate::{Cursor, FoldedFrame};
use refusals::Refusal;
use terms::Name;

// A sound report as reading leaves it: its frame, the folded terms of its lines, and the hash of each.
#[derive(Clone, Copy)]
pub struct Lines<'a> {
    pub frame: &'a [u8],
    pub names: &'a [u8],
    pub hashes: &'a [u32],
    ghost sound: { report_refusal frame.now ≡ 0 },
    ghost room: { length frame.now ≤ length names.now },
    ghost folded: { Folds frame.now names.now first_line },
    ghost hashed: { hashes.now ≡ hashes_of frame.now (lines frame.now) },
    ghost few: { length hashes.now ≤ max_lines },
}

// A line: its folded term and its count.
#[derive(Clone, Copy)]
pub struct Line<'a> {
    pub name: Name<'a>,
    pub count: u32,
}

// The lines from an offset of the frame on.
#[derive(Clone, Copy)]
pub struct LinesLeft<'a> {
    frame: &'a [u8],
    names: &'a [u8],
    hashes: &'a [u32],
    at: usize,
    ghost room: { length frame.now ≤ length names.now },
    ghost folded: { Folds frame.now names.now at },
    ghost whole: { passes_end count_bytes frame.now at ≡ false },
    ghost good: { bad_term frame.now (fields count_bytes frame.now at) ≡ false },
    ghost hashed: { hashes.now ≡ hashes_of frame.now (fields count_bytes frame.now at) },
}

impl<'a> Lines<'a> {
    // Reads a report's frame. `names` and `hashes` are room for what reading leaves.
    pub fn read(
        frame: &'a [u8],
        names: &'a mut [u8],
        hashes: &'a mut [u32],
    ) -> Result<Lines<'a>, Refusal>
        requires { (max_body + 3 ≤ length names.old) × (max_lines ≤ length hashes.old) }
        ensures refused { refused_under result ≡ report_refusal frame.now }
        ensures frame { IfOk result (λ l. l.frame.now ≡ frame.now) }
    {
        let count = crate::read_report(frame, names, hashes)?;
        Ok(Lines {
            frame,
            names,
            hashes: &hashes[..count],
        })
    }

    // One line after another.
    pub fn iter(self) -> LinesLeft<'a>
        ensures { (result.frame.now ≡ self.entry.frame.now) × (result.at ≡ first_line) }
    {
        LinesLeft {
            frame: self.frame,
            names: self.names,
            hashes: self.hashes,
            at: 4,
        }
    }
}

impl<'a> Iterator for LinesLeft<'a> {
    ghost use Rattle.frames.specs.Lines.{LineGoes};

    type Item = Line<'a>;

    ghost next_gives = { LineGoes };

    ghost remaining = { λ s. at_most (length s.hashes.now) };

    fn next(&mut self) -> Option<Line<'a>> {
        let (hash, others) = self.hashes.split_first()?;
        let c = Cursor { at: self.at };
        let folded = FoldedFrame {
            frame: self.frame,
            names: self.names,
        };
        self.at = c.past(self.frame, 4).at;
        self.hashes = others;
        Some(Line {
            name: Name {
                bytes: c.name(folded),
                hash: *hash,
            },
            count: c.count(self.frame),
        })
    }
}
