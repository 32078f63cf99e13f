// Document 01: a book read and written again. The entry tests 1 to 7 first, then 18; it has no `requires`.
#![tactic(auto)]

ghost use Rattle.std.specs.Prelude.{◌≡◌, ◌≤◌, ◌<◌, length};
ghost use Rattle.model.specs.Merge.{padded};
ghost use Rattle.model.specs.Lookup.{copied_tape, copied_bytes, copy_into};
ghost use Rattle.refusal.specs.Refusal.{checked, checked_map};
ghost use Rattle.copy.specs.Copying.{copied_of};

use refusal::Refusal;

// How many bytes of the two result buffers the book takes, a copy here or a flat one (crate `flatten`).
#[derive(Clone, Copy, Debug, PartialEq, Eq)]
pub struct Copied {
    pub tape: usize,
    pub bytes: usize,
}

// 1 to 7, then 18 for a short buffer.
fn check_copy(tape: &[u8], bytes: &[u8], tape_room: usize, bytes_room: usize) -> Result<(), Refusal>
    ensures { checked result ≡ checked_map (λ _. tt) (copy_into tape.now bytes.now tape_room bytes_room) }
{
    tape::open_book(tape, bytes)?;
    if tape_room < tape.len() {
        return Err(Refusal::NoRoom);
    }
    if bytes_room < bytes.len() {
        return Err(Refusal::NoRoom);
    }
    Ok(())
}

// `s` from the buffer's start on, and zeros behind it.
fn copy_padded(out: &mut [u8], s: &[u8])
    requires { length s.now ≤ length out.old }
    ensures { out.new ≡ padded (length out.old) s.now }
{
    wire::copy_at(out, 0, s);
    wire::zero_from(out, s.len());
}

// A book read and written again, which is the same bytes: both buffers copied, or cleared after a refusal.
pub fn copy_book(
    tape: &[u8],
    bytes: &[u8],
    out_tape: &mut [u8],
    out_bytes: &mut [u8],
) -> Result<Copied, Refusal>
    ensures { let copy = copy_into tape.now bytes.now (length out_tape.old) (length out_bytes.old) in
        (checked result ≡ copied_of copy)
        × (out_tape.new ≡ copied_tape (length out_tape.old) copy)
        × (out_bytes.new ≡ copied_bytes (length out_bytes.old) copy) }
{
    match check_copy(tape, bytes, out_tape.len(), out_bytes.len()) {
        Ok(()) => {
            copy_padded(out_tape, tape);
            copy_padded(out_bytes, bytes);
            Ok(Copied {
                tape: tape.len(),
                bytes: bytes.len(),
            })
        }
        Err(refusal) => {
            wire::zero_from(out_tape, 0);
            wire::zero_from(out_bytes, 0);
            Err(refusal)
        }
    }
}
