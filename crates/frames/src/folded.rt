// A frame with the folded terms of its lines.

ghost use Rattle.std.specs.Prelude.{◌≤◌, length};

// A frame, and room for its bytes: where a line's term stands in the frame, the folded term stands in `names`. The two
// are lent apart, so that a folded term may outlive the frame.
#[derive(Clone, Copy)]
pub struct FoldedFrame<'f, 'n> {
    pub frame: &'f [u8],
    pub names: &'n [u8],
    ghost room: { length frame.now ≤ length names.now },
}
