// The records of one kind on a tape: how many of them a part has, and the part written.
#![tactic(auto)]

ghost use Rattle.std.specs.Prelude.{◌+◌, ◌*◌, ◌≤◌, length};

use crate::{Part, Spliced, Window};
use places::Run;
use std::marker::PhantomData;

// A run of records of a kind, which lies in its tape.
#[derive(Drop)]
pub struct Section<'a, K: Spliced> {
    pub tape: &'a [u8],
    pub run: Run,
    kind: PhantomData<K>,
    pub ghost inside: { run.at + K.SIZE * run.count ≤ length tape.now },
}

impl<'a, K: Spliced> Section<'a, K> {
    ghost use Rattle.std.specs.Prelude.{◌≡◌, ◌+◌, ◌*◌, ◌≤◌, length, map};
    ghost use Rattle.model.specs.Tape.{records_at, records_bytes};
    ghost use Rattle.model.specs.Merge.{kept_before, kept_behind};
    ghost use Rattle.wire.specs.Overwrite.{overwrite};
    ghost use Rattle.splice.specs.Parts.{part_of};
    ghost use Rattle.splice.specs.Window.{window_value};

    pub fn new(tape: &'a [u8], run: Run) -> Section<'a, K>
        requires { run.at + K.SIZE * run.count ≤ length tape.now }
        ensures { (result.tape.now ≡ tape.now) × (result.run ≡ run) }
    {
        Section {
            tape,
            run,
            kind: PhantomData,
        }
    }

    // How many records are in a part.
    fn count_part(&self, w: Window, part: Part) -> usize
        ensures { result ≡ length (part_of K.located (window_value w) part (records_at K.codec self.now.tape.now self.now.run.at self.now.run.count)) }
    {
        (0..self.run.count)
            .filter(
                |i|
                    requires { self.now.run.at + K.SIZE * i.now + K.SIZE ≤ length self.now.tape.now }
                { K::is_in(self.tape, self.run.at + K::SIZE * *i, w, part) },
            )
            .count()
    }

    // The parts by name, as the model has them: `kept_before`, `kept_behind`, the reading placed. Who calls needs no `part_of`.

    pub fn count_before(&self, w: Window) -> usize
        ensures { result ≡ length (kept_before K.located (window_value w) (records_at K.codec self.now.tape.now self.now.run.at self.now.run.count)) }
    {
        self.count_part(w, Part::Before)
    }

    pub fn count_behind(&self, w: Window) -> usize
        ensures { result ≡ length (kept_behind K.located (window_value w) (records_at K.codec self.now.tape.now self.now.run.at self.now.run.count)) }
    {
        self.count_part(w, Part::Behind)
    }

    // The records that are in a part, written as they stand there. `next` is counted by hand: it moves only past what was written.
    fn put_part(&self, w: Window, part: Part, out: &mut [u8], to: usize)
        requires { to + K.SIZE * length (part_of K.located (window_value w) part (records_at K.codec self.now.tape.now self.now.run.at self.now.run.count)) ≤ length out.old }
        ensures { out.new ≡ overwrite out.old to (records_bytes K.codec (part_of K.located (window_value w) part (records_at K.codec self.now.tape.now self.now.run.at self.now.run.count))) }
    {
        let mut next = to;
        for i in 0..self.run.count {
            let place = self.run.at + K::SIZE * i;
            if K::is_in(self.tape, place, w, part) {
                K::put(self.tape, place, w, part, out, next);
                next += K::SIZE;
            }
        }
    }

    pub fn put_before(&self, w: Window, out: &mut [u8], to: usize)
        requires { to + K.SIZE * length (kept_before K.located (window_value w) (records_at K.codec self.now.tape.now self.now.run.at self.now.run.count)) ≤ length out.old }
        ensures { out.new ≡ overwrite out.old to (records_bytes K.codec (kept_before K.located (window_value w) (records_at K.codec self.now.tape.now self.now.run.at self.now.run.count))) }
    {
        self.put_part(w, Part::Before, out, to);
    }

    pub fn put_reading(&self, w: Window, out: &mut [u8], to: usize)
        requires { to + K.SIZE * self.now.run.count ≤ length out.old }
        ensures { out.new ≡ overwrite out.old to (records_bytes K.codec (map (K.located.placed (window_value w)) (records_at K.codec self.now.tape.now self.now.run.at self.now.run.count))) }
    {
        self.put_part(w, Part::Reading, out, to);
    }

    pub fn put_behind(&self, w: Window, out: &mut [u8], to: usize)
        requires { to + K.SIZE * length (kept_behind K.located (window_value w) (records_at K.codec self.now.tape.now self.now.run.at self.now.run.count)) ≤ length out.old }
        ensures { out.new ≡ overwrite out.old to (records_bytes K.codec (map (K.located.moved (window_value w)) (kept_behind K.located (window_value w) (records_at K.codec self.now.tape.now self.now.run.at self.now.run.count)))) }
    {
        self.put_part(w, Part::Behind, out, to);
    }
}
