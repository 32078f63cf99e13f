// What number 10 and number 15 ask of a node: is it a Ruby, a Format that refers, which string does it name, and does another node name it by the
// same id. That a place or a node's number lies in the tape is said by each function that is asked of one node: it is another at each turn,
// and a value of tape and place would be made anew there, and the bound be shown there all the same.
#![tactic(auto)]

mod nodes;

ghost use Rattle.std.specs.Prelude.{◌≡◌, ◌+◌, ◌*◌, ◌≤◌, length};
ghost use Rattle.model.specs.Lists.{any};
ghost use Rattle.model.specs.Tape.{record_at, records_at, node_codec};
ghost use Rattle.model.specs.Region.{is_ruby, is_referenced_format};
ghost use Rattle.ruby_formats.specs.Asks.{asks_target, asks_at, count_to_last, format_from};

pub use nodes::Nodes;
use numbers::NODE_SIZE;
use places::Run;
use records::{FORMAT, INLINE, RUBY};
use span::SourceOffset;

// The `ForwardOrigin` of a Format that refers to its target.
const REFERENCED: u8 = 1;

// An Inline Ruby. Here and below by place, for walks over a tape alone; struct `Nodes` asks the same by number, one line each over these.
#[tactic(auto, unfolding(model::specs::Tape::record_at, model::specs::Tape::operands_at, model::specs::Tape::node_codec))]
pub fn is_ruby(tape: &[u8], at: usize) -> bool
    requires { at + 49 ≤ length tape.now }
    ensures { result ≡ is_ruby (record_at node_codec tape.now at) }
{
    tape[at + 1] == INLINE && tape[at + 15] == RUBY
}

pub fn any_ruby(tape: &[u8], nodes: Run) -> bool
    requires { nodes.at + 49 * nodes.count ≤ length tape.now }
    ensures { result ≡ any is_ruby (records_at node_codec tape.now nodes.at nodes.count) }
{
    (0..nodes.count).any(|i| is_ruby(tape, nodes.at + NODE_SIZE * i))
}

// An Inline Format whose `ForwardOrigin` is Referenced.
#[tactic(auto, unfolding(model::specs::Tape::record_at, model::specs::Tape::operands_at, model::specs::Tape::node_codec))]
pub fn is_referenced_format(tape: &[u8], at: usize) -> bool
    requires { at + 49 ≤ length tape.now }
    ensures { result ≡ is_referenced_format (record_at node_codec tape.now at) }
{
    tape[at + 1] == INLINE && tape[at + 15] == FORMAT && tape[at + 16] / 4 == REFERENCED
}

// A Referenced Format that starts at or behind an offset.
#[tactic(auto, unfolding(crate::specs::Asks::format_from))]
pub fn is_format_from(tape: &[u8], at: usize, from: SourceOffset) -> bool
    requires { at + 49 ≤ length tape.now }
    ensures { result ≡ format_from from.0 (record_at node_codec tape.now at) }
{
    is_referenced_format(tape, at) && from <= records::node_start(tape, at)
}

// Number 10 asks for its target: a Referenced Format that ends behind `from`.
#[tactic(auto, unfolding(crate::specs::Asks::asks_target))]
pub fn asks_target(tape: &[u8], at: usize, from: SourceOffset) -> bool
    requires { at + 49 ≤ length tape.now }
    ensures { result ≡ asks_target from.0 (record_at node_codec tape.now at) }
{
    is_referenced_format(tape, at) && from < records::node_end(tape, at)
}

// How many nodes there are up to the last whose target is asked for: the others need no filter.
pub fn asked_nodes(tape: &[u8], nodes: Run, from: SourceOffset) -> usize
    requires { nodes.at + 49 * nodes.count ≤ length tape.now }
    ensures { result ≡ count_to_last nodes.count (asks_at from.0 tape.now nodes.at) }
{
    for n in (0..nodes.count).rev() {
        if asks_target(tape, nodes.at + NODE_SIZE * n, from) {
            return n + 1;
        }
    }
    0
}
