// Counts the lines of a script.

ghost use Rattle.std.specs.Prelude.{◌≡◌, ◌+◌, if◌then◌else◌};
ghost use Rattle.std.specs.Io.Iter.{u64_saturate};

/// The number of lines of a script, and the number of refused lines. Neither number grows beyond
/// the greatest `u64`.
#[derive(Clone, Copy, PartialEq, Eq)]
pub struct Summary {
    /// The number of lines, including a line without a newline.
    pub lines: u64,
    /// The number of refused lines: those that have none of the forms, those whose command is
    /// refused, and a line without a newline.
    pub refused: u64,
}

impl Summary {
    /// Counts a line, and also counts it as refused if `refused` is true.
    pub(crate) fn count(&mut self, refused: bool)
        ensures lines { self.new.lines ≡ u64_saturate (self.old.lines + 1) }
        ensures refused { self.new.refused
            ≡ u64_saturate (self.old.refused + (if refused then 1 else 0)) }
    {
        self.lines = self.lines.saturating_add(1);
        self.refused = self.refused.saturating_add(u64::from(refused));
    }
}
