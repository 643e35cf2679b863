// The blocks in use.

ghost use Rattle.std.specs.Prelude.{◌≤◌, length};
ghost use Rattle.blocks.specs.Fields.{place};

// An arena and how many of its blocks are used.
#[derive(Clone, Copy)]
pub struct Used<'a> {
    pub arena: &'a [u8],
    pub blocks: u32,
    ghost inside: { place blocks ≤ length arena.now },
}
