// What every crate above shares: 16-bit and 32-bit numbers in bytes, highest byte first, whether two slices are the
// same, and what a function gives at each element of a slice. The laws on numbers, lists and tables stand in proofs/.
#![tactic(auto)]

ghost use Rattle.std.specs.Prelude.{◌≡◌, ◌+◌, ◌*◌, ◌≤◌, ◌<◌, min, length, take, drop};
ghost use Rattle.std.specs.List.{AllZip};
ghost use Rattle.std.proofs.lemmas.List.Edits.{sets};
ghost use Rattle.basics.specs.Words.{word, word_at};
ghost use Rattle.basics.specs.Lists.{same};

// A length as a number of 32 bits: the largest one where it is longer.
pub fn saturated(n: usize) -> u32
    ensures { result ≡ min n 4294967295 }
{
    u32::try_from(n).unwrap_or(u32::MAX)
}

// Two bytes as a number, the high one first.
pub fn pair(high: u8, low: u8) -> usize
    ensures { (result ≡ high * 256 + low) × (result < 65536) }
{
    usize::from(u16::from_be_bytes([high, low]))
}

// The number in the four bytes from `at` on.
#[tactic(auto, unfolding(crate::specs::Words::word_at))]
pub fn read_word(s: &[u8], at: usize) -> u32
    requires { at + 4 ≤ length s.now }
    ensures { result ≡ word_at s.now at }
{
    u32::from_be_bytes([s[at], s[at + 1], s[at + 2], s[at + 3]])
}

// Writes bytes from `at` on.
#[tactic(auto, using(crate::proofs::Stores::put_mid_sets))]
pub fn write_bytes(s: &mut [u8], at: usize, bytes: &[u8])
    requires { at + length bytes.now ≤ length s.old }
    ensures { s.new ≡ sets s.old at bytes.now }
{
    s[at..at + bytes.len()].copy_from_slice(bytes);
}

// Writes a number into the four bytes from `at` on.
#[tactic(auto, unfolding(crate::specs::Words::word))]
pub fn write_word(s: &mut [u8], at: usize, n: u32)
    requires { at + 4 ≤ length s.old }
    ensures { s.new ≡ sets s.old at (word n) }
{
    write_bytes(s, at, &n.to_be_bytes());
}

// Whether two slices have the same bytes.
#[tactic(auto, unfolding(crate::specs::Lists::same))]
pub fn same_bytes(a: &[u8], b: &[u8]) -> bool
    ensures { result ≡ same a.now b.now }
{
    a == b
}

// Writes what `f` gives at each element of `from` into the first places of `into`, in order. The other places stay.
pub fn map_into<T: Copy, U: Copy, F: Fn(T) -> U>(from: &[T], into: &mut [U], f: F)
    requires fits { length from.now ≤ length into.old }
    requires callable { F.IsAlwaysCallable f }
    ensures made { AllZip (F.post f) from.now (take (length from.now) into.new) }
    ensures kept { drop (length from.now) into.new ≡ drop (length from.now) into.old }
{
    for (i, x) in from.iter().enumerate() {
        into[i] = f(*x);
    }
}
