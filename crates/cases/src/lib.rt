// One case after the other out of a stream of them. A case is six words: the lengths of its label, its tape and its bytes, a start,
// an end, the length of its replacement; then those four parts. What the input does not hold of a case is left out of it. The programs
// that read cases have the same `main`, six lines each (desk_run's carries a ledger and a book along, flatten_run's a book): in one function
// here, lent what shows a case, each would have to show that its closure may be called with any case, and promise nothing of what is read and
// printed.
#![tactic(auto)]

ghost use Rattle.std.specs.Prelude.{◌≡◌, take, drop};

#[derive(Clone, Copy)]
pub struct Case<'a> {
    pub label: &'a [u8],
    pub tape: &'a [u8],
    pub bytes: &'a [u8],
    pub replacement: &'a [u8],
    pub start: u32,
    pub end: u32,
}

// What is left of the input.
#[derive(Drop)]
pub struct Cases<'a>(&'a [u8]);

impl<'a> Cases<'a> {
    ghost use Rattle.cases.specs.Stream.{left};

    pub fn new(input: &'a [u8]) -> Self
        ensures { left result ≡ input.now }
    {
        Cases(input)
    }

    // The next bytes, or as many as are left.
    fn part(&mut self, len: u32) -> &'a [u8]
        ensures part { result.now ≡ take len (left self.old) }
        ensures rest { left self.new ≡ drop len (left self.old) }
    {
        let (part, rest) = self.0.split_at((len as usize).min(self.0.len()));
        self.0 = rest;
        part
    }
}

impl<'a> Iterator for Cases<'a> {
    ghost use Rattle.std.specs.Prelude.{length};
    ghost use Rattle.std.specs.Iterator.{at_most};
    ghost use Rattle.cases.specs.Stream.{left, GivesCase};

    type Item = Case<'a>;

    ghost next_gives = { GivesCase };

    ghost remaining = { λ s. at_most (length (left s)) };

    fn next(&mut self) -> Option<Case<'a>> {
        if self.0.is_empty() {
            return None;
        }
        let head = self.part(24);
        let label = self.part(wire::u32_or_zero(head, 0));
        let tape = self.part(wire::u32_or_zero(head, 4));
        let bytes = self.part(wire::u32_or_zero(head, 8));
        let replacement = self.part(wire::u32_or_zero(head, 20));
        Some(Case {
            label,
            tape,
            bytes,
            replacement,
            start: wire::u32_or_zero(head, 12),
            end: wire::u32_or_zero(head, 16),
        })
    }
}
