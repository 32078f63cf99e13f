// Document 01 section 7: pairs, containers and diagnostics of a merge written, part by part: `merge_pairs`, `merge_container_pairs`,
// `merge_diagnostics`. Crate splice says which records are in a part and where their offsets stand there.
#![tactic(auto)]

ghost use Rattle.std.specs.Prelude.{◌≡◌};
ghost use Rattle.model.specs.Types as Types;
ghost use Rattle.model.specs.Tape.{record_bytes, pair_codec, container_codec, diagnostic_codec};
ghost use Rattle.model.specs.Merge.{pair_located, container_located, diagnostic_located};
ghost use Rattle.records.specs.Values.{pair_link_of, container_pair_of, diagnostic_of};
ghost use Rattle.splice.specs.Kinds.{pair_kind, container_kind, diagnostic_kind};
ghost use Rattle.splice.specs.Parts.{as_in};
ghost use Rattle.splice.specs.Window.{window_value};

use numbers::{CONTAINER_SIZE, DIAGNOSTIC_SIZE, PAIR_SIZE};

// A kind of record has a struct and fields of its own, so each is read and moved by functions of its own.

// ---- pairs, `merge_pairs`

fn pair_as_in(p: records::PairLink, w: splice::Window, part: splice::Part) -> records::PairLink
    ensures { pair_link_of result ≡ as_in pair_located (window_value w) part (pair_link_of p) }
{
    records::PairLink {
        kind: p.kind,
        opening: w.span_in(p.opening, part),
        closing: w.span_in(p.closing, part),
    }
}

pub struct Pairs;

impl splice::Spliced for Pairs {
    const SIZE: usize = PAIR_SIZE;

    ghost SIZE = { 18 };

    ghost Value = { Types.PairLink };

    ghost codec = { pair_codec };

    ghost located = { pair_located };

    #[tactic(auto, unfolding(model::specs::Merge::pair_located, splice::specs::Parts::is_in))]
    fn is_in(tape: &[u8], at: usize, w: splice::Window, part: splice::Part) -> bool {
        let p = records::pair_at(tape, at);
        let span = span::Span {
            start: p.opening.start,
            end: p.closing.end,
        };
        w.has_span(span, part)
    }

    fn put(
        tape: &[u8],
        at: usize,
        w: splice::Window,
        part: splice::Part,
        out: &mut [u8],
        to: usize,
    ) {
        put_records::put_pair(out, to, pair_as_in(records::pair_at(tape, at), w, part));
    }

    ghost kind = { pair_kind };
}

// ---- containers, `merge_container_pairs`: in the normalized text

fn container_as_in(
    p: records::ContainerPair,
    w: splice::Window,
    part: splice::Part,
) -> records::ContainerPair
    ensures { record_bytes container_codec (container_pair_of result) ≡ record_bytes container_codec (as_in container_located (window_value w) part (container_pair_of p)) }
{
    records::ContainerPair {
        plain: p.plain,
        opening: w.normalized_in(p.opening, part),
        closing: w.normalized_in(p.closing, part),
    }
}

pub struct Containers;

impl splice::Spliced for Containers {
    const SIZE: usize = CONTAINER_SIZE;

    ghost SIZE = { 13 };

    ghost Value = { Types.ContainerPair };

    ghost codec = { container_codec };

    ghost located = { container_located };

    #[tactic(auto, unfolding(model::specs::Merge::container_located, splice::specs::Parts::is_in))]
    fn is_in(tape: &[u8], at: usize, w: splice::Window, part: splice::Part) -> bool {
        let p = records::container_at(tape, at);
        let marks = span::NormalizedSpan {
            start: p.opening,
            end: p.closing,
        };
        w.has_marks(marks, part)
    }

    fn put(
        tape: &[u8],
        at: usize,
        w: splice::Window,
        part: splice::Part,
        out: &mut [u8],
        to: usize,
    ) {
        put_records::put_container(
            out,
            to,
            container_as_in(records::container_at(tape, at), w, part),
        );
    }

    ghost kind = { container_kind };
}

// ---- diagnostics, `merge_diagnostics`

fn diagnostic_as_in(
    d: records::Diagnostic,
    w: splice::Window,
    part: splice::Part,
) -> records::Diagnostic
    ensures { diagnostic_of result ≡ as_in diagnostic_located (window_value w) part (diagnostic_of d) }
{
    records::Diagnostic {
        kind: d.kind,
        rank: d.rank,
        span: w.span_in(d.span, part),
        plain: d.plain,
    }
}

pub struct Diagnostics;

impl splice::Spliced for Diagnostics {
    const SIZE: usize = DIAGNOSTIC_SIZE;

    ghost SIZE = { 18 };

    ghost Value = { Types.Diagnostic };

    ghost codec = { diagnostic_codec };

    ghost located = { diagnostic_located };

    #[tactic(auto, unfolding(model::specs::Merge::diagnostic_located, splice::specs::Parts::is_in))]
    fn is_in(tape: &[u8], at: usize, w: splice::Window, part: splice::Part) -> bool {
        w.has_span(records::diagnostic_at(tape, at).span, part)
    }

    fn put(
        tape: &[u8],
        at: usize,
        w: splice::Window,
        part: splice::Part,
        out: &mut [u8],
        to: usize,
    ) {
        put_records::put_diagnostic(
            out,
            to,
            diagnostic_as_in(records::diagnostic_at(tape, at), w, part),
        );
    }

    ghost kind = { diagnostic_kind };
}
