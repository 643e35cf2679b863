// Windows of 64 reports, whose marks are the bits of one number, the first report the highest.

ghost use Rattle.std.specs.Prelude.{ℕ, ◌≡◌, ◌+◌, ◌^◌, ◌≤◌, ◌<◌, true, false, ◌&&◌, length};
ghost use Rattle.query.specs.Marks.{width, In, is_marked, FirstMarked, Without, with_mark, PutOut};

use crate::Marked;

// The reports of a window that are asked for: the window's first one, and the last one asked for.
#[derive(Clone, Copy)]
pub(crate) struct Span {
    pub base: u32,
    pub to: u32,
    ghost inside: { In base to },
}

impl Span {
    // The marks with report n, where it is not past `to`.
    #[tactic(auto, using(crate::proofs::Marking::added_fits, crate::proofs::Marking::with_yes, crate::proofs::Marking::with_no, crate::proofs::Marking::bit_down))]
    pub fn with_mark(self, mask: u64, n: u32) -> u64
        requires { (self.base ≤ n) × (In self.base n → is_marked mask self.base n ≡ false) }
        ensures { result ≡ with_mark self.base self.to mask n }
    {
        if n <= self.to {
            return mask + (9223372036854775808 >> (n - self.base));
        }
        mask
    }
}

// The reports that both mark.
#[tactic(auto, using(crate::proofs::Marking::both_marked))]
fn marked_by_both(mask: u64, other: u64) -> u64
    ensures { (base n : ℕ) → In base n → is_marked result base n ≡ is_marked mask base n && is_marked other base n }
{
    mask & other
}

// How far behind the window's first report the first marked one stands.
#[tactic(auto, using(crate::proofs::Marking::first_marked))]
fn first_marked(mask: u64) -> u32
    requires { 0 < mask }
    ensures { FirstMarked mask result }
{
    mask.leading_zeros()
}

// The marks without the first one.
#[tactic(auto, using(crate::proofs::Marking::taken_le, crate::proofs::Marking::without_first))]
fn without_first(mask: u64, first: u32) -> u64
    requires { (first < width) × (is_marked mask 0 first ≡ true) }
    ensures { Without mask first result }
{
    mask - (1u64 << (63 - first))
}

// A window: which of its reports are asked for, which of these all chains asked so far hold, and where the next window
// begins: behind this one, and behind where a chain asked stands already.
#[derive(Clone, Copy)]
pub(crate) struct Window {
    pub span: Span,
    pub mask: u64,
    pub next: u64,
    ghost up_to: { (n : ℕ) → In span.base n → is_marked mask span.base n ≡ true → n ≤ span.to },
}

impl Window {
    ghost use Rattle.query.specs.Windows.{Begun, Narrowed};

    // The window from a report on, before a chain is asked.
    #[tactic(auto, using(crate::proofs::Marking::marked_upto))]
    pub fn new(base: u32) -> Self
        ensures { Begun base result }
    {
        let to = base.saturating_add(63);
        Window {
            span: Span { base, to },
            mask: u64::MAX << (63 - (to - base)),
            next: u64::from(to) + 1,
        }
    }

    // What is left of it where a chain was asked.
    pub fn narrowed(self, m: Marked) -> Self
        ensures { Narrowed self m result }
    {
        let mut w = Window {
            span: self.span,
            mask: marked_by_both(self.mask, m.mask),
            next: self.next.max(u64::from(m.place.number)),
        };
        if w.mask != 0 {
            w.span.to = w.last();
        }
        w
    }

    // Its last report that is marked.
    fn last(self) -> u32
        requires { 0 < self.mask }
        ensures { In self.span.base result × (is_marked self.mask self.span.base result ≡ true) × ((n : ℕ) → In self.span.base n → is_marked self.mask self.span.base n ≡ true → n ≤ result) }
    {
        self.span.base + (63 - self.mask.trailing_zeros())
    }

    // Puts its marked reports into the list, from a place on, and says how many places are filled then; none where a
    // marked report found no place.
    pub fn put(self, numbers: &mut [u32], from: usize) -> Option<usize>
        requires { from ≤ length numbers.old }
        ensures { PutOut self.span.base self.mask numbers.old from numbers.new result }
    {
        let mut mask = self.mask;
        let mut filled = from;
        while mask != 0 {
            if filled == numbers.len() {
                return None;
            }
            let first = first_marked(mask);
            numbers[filled] = self.span.base + first;
            filled += 1;
            mask = without_first(mask, first);
        }
        Some(filled)
    }
}
