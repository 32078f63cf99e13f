// A text with a part of it replaced: what one of the merged book's two texts is made of.
#![tactic(auto)]

ghost use Rattle.std.specs.Prelude.{◌≤◌, length};

// A text, and what the part from `start` to `end` is replaced by.
#[derive(Clone, Copy)]
pub struct Replaced<'a> {
    pub whole: &'a [u8],
    pub start: usize,
    pub end: usize,
    pub part: &'a [u8],
    pub ghost inside: { (start ≤ end) × (end ≤ length whole.now) },
}

impl<'a> Replaced<'a> {
    ghost use Rattle.std.specs.Prelude.{◌≡◌, ◌+◌, ◌≤◌, length};
    ghost use Rattle.wire.specs.Overwrite.{overwrite};
    ghost use Rattle.merged_texts.specs.Replaced.{replaced};

    // The text with its part replaced, and where it ends.
    pub fn put(&self, out: &mut [u8], at: usize) -> usize
        requires { at + length (replaced self.now) ≤ length out.old }
        ensures { (out.new ≡ overwrite out.old at (replaced self.now)) × (result ≡ at + length (replaced self.now)) }
    {
        let whole = self.whole;
        let part_to = at + self.start;
        let rest_to = part_to + self.part.len();
        wire::copy_at(out, at, &whole[0..self.start]);
        wire::copy_at(out, part_to, self.part);
        wire::copy_at(out, rest_to, &whole[self.end..whole.len()]);
        rest_to + (whole.len() - self.end)
    }
}
