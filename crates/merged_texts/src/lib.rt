// The texts of the merged book and the head of its tape, document 01 section 7: both ends of a text stay, and so do the old layers and
// the old strings.
#![tactic(auto)]

ghost use Rattle.std.specs.Prelude.{◌≡◌, ◌++◌, ◌+◌, ◌-◌, ◌≤◌, length};
ghost use Rattle.model.specs.Bytes.{part};
ghost use Rattle.wire.specs.Overwrite.{overwrite};
ghost use Rattle.merged_texts.specs.Replaced.{replaced};
ghost use Rattle.laws.specs.Parts.{head_bytes};

mod replaced;

use numbers::HEAD_SIZE;
pub use replaced::Replaced;

// Both new texts, and the old strings as they stood.
pub fn put_texts(out: &mut [u8], text: &Replaced, normalized: &Replaced, strings: &[u8])
    requires { length (replaced text.now) + length (replaced normalized.now) + length strings.now ≤ length out.old }
    ensures { out.new ≡ overwrite out.old 0 (replaced text.now ++ replaced normalized.now ++ strings.now) }
{
    let normalized_to = text.put(out, 0);
    let strings_to = normalized.put(out, normalized_to);
    wire::copy_at(out, strings_to, strings);
}

// Command 1 with the lengths of both texts, and the old layers as they stood.
pub fn put_head(out: &mut [u8], tape: &[u8], nodes_at: usize, text: u32, normalized: u32)
    requires { (9 ≤ nodes_at) × (nodes_at ≤ length tape.now) × (nodes_at ≤ length out.old) }
    ensures { out.new ≡ overwrite out.old 0 (head_bytes text normalized ++ part tape.now 9 (nodes_at - 9)) }
{
    // command 1, written nowhere else
    wire::put_u8(out, 0, 1);
    wire::put_u32(out, 1, text);
    wire::put_u32(out, 5, normalized);
    wire::copy_at(out, HEAD_SIZE, &tape[HEAD_SIZE..nodes_at]);
}
