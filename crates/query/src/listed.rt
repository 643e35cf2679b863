// What a listing that is not refused comes to.
ghost use Rattle.std.specs.Prelude.{◌≤◌};
ghost use Rattle.blocks.specs.Fields.{max_word};

// How many places were filled, so few that an answer can say it, and whether more reports remain.
#[derive(Clone, Copy)]
pub struct Listed {
    pub more: bool,
    pub filled: usize,
    ghost few: { filled ≤ max_word },
}
