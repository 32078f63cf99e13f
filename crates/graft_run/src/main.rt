// Reads cases from standard input and prints what grafting makes of a source's nodes: one new layer above pools of the given sizes, in
// buffers of the given lengths; or the number of the refusal. A case's start and end are those lengths, its replacement the three sizes.
// tools/cases/make writes the cases, and from document 01 the output that is stored beside them.
#![tactic(auto)]

ghost use Rattle.std.specs.Prelude.{◌≡◌, IfSome, true, ◌+◌, ◌*◌, ◌≤◌, length};
ghost use Rattle.layer.specs.Layered.{TotalsFit};

use layer::{Grafted, Place};
use refusal::Refusal;
use std::io;
use store::Totals;
use tape::Book;

// number 3's limit, as crate `texts` has it for itself
const MAX_POOL: u32 = numbers::MAX_POOL as u32;

const NODE: usize = numbers::NODE_SIZE;

fn put_refused(rt: &impl Print, refusal: Refusal) -> io::Result<()> {
    print!(rt; "refused {}", u32::from(refusal))
}

// The layer's records, and those of the nodes behind them; the strings' bytes begin at 0.
fn put_layer(rt: &impl Print, r: Grafted, nodes: usize, out: &[u8], strs: &[u8]) -> io::Result<()>
    requires { r.len + 49 * nodes ≤ length out.now }
{
    let state = r.state;
    let c = state.stats;
    print!(rt;
        "strings {} contents {} segments {} nodes {nodes}, layer {} bytes",
        r.strings, r.contents, r.segments, r.len,
    )?;
    print!(rt;
        ", calls {} cache hits {} table hits {} allocs {} long {} resizes {} probes {}",
        c.calls, c.cache_hits, c.table_hits, c.allocs, c.long_bypass, c.resizes, c.probe_steps,
    )?;
    print!(rt;
        ", tape {:016x} strings {:016x}",
        hash::fx_hash(&out[..r.len + NODE * nodes]),
        hash::fx_hash(wire::between(strs, 0, state.used)),
    )
}

fn put_answer(
    rt: &impl Print,
    r: Option<Grafted>,
    nodes: usize,
    out: &[u8],
    strs: &[u8],
) -> io::Result<()>
    requires { IfSome r (λ l. l.len + 49 * nodes ≤ length out.now) }
{
    match r {
        Some(l) => put_layer(rt, l, nodes, out, strs),
        None => put_refused(rt, Refusal::NoRoom),
    }
}

fn graft(
    rt: &impl Print,
    source: &Book,
    below: Totals,
    out: &mut [u8],
    work: &mut [u32],
    strs: &mut [u8],
) -> io::Result<()>
    requires totals_fit { TotalsFit below }
    requires in_bounds { 16384 ≤ length work.old }
{
    let to = Place {
        below,
        at: 0,
        base: 0,
    };
    let r = layer::graft_layer(source, to, out, work, strs);
    put_answer(rt, r, source.places.nodes.count, out, strs)
}

// Number 3. No pool below the new layer is over its limit.
fn totals_fit(o: Totals) -> bool
    ensures { result ≡ true → TotalsFit o }
{
    o.strings <= MAX_POOL && o.contents <= MAX_POOL && o.segments <= MAX_POOL
}

// So many bytes as are lent of a buffer.
fn first(buffer: &mut [u8], n: u32) -> &mut [u8] {
    let n = buffer.len().min(n as usize);
    &mut buffer[..n]
}

fn show_graft(rt: &impl Print, c: cases::Case) -> io::Result<()> {
    let source = match tape::open_book(c.tape, c.bytes) {
        Ok(book) => book,
        Err(refusal) => return put_refused(rt, refusal),
    };
    let below = Totals {
        strings: wire::u32_or_zero(c.replacement, 0),
        contents: wire::u32_or_zero(c.replacement, 4),
        segments: wire::u32_or_zero(c.replacement, 8),
    };
    if !totals_fit(below) {
        return put_refused(rt, Refusal::NoRoom);
    }
    let mut out = [7u8; 65536];
    let mut strs = [7u8; 262144];
    let mut work = [7u32; 16384];
    let out = first(&mut out, c.start);
    graft(rt, &source, below, out, &mut work, first(&mut strs, c.end))
}

fn show(rt: &impl Print, c: cases::Case) -> io::Result<()> {
    rt.write_all(c.label)?;
    print!(rt; ": ")?;
    show_graft(rt, c)?;
    println!(rt)
}

fn main(rt: HostRuntime) -> io::Result<()> {
    let mut input = [0u8; 65536];
    let n = stream::read_full(&mut rt.stdin(), &mut input)?;
    for c in cases::Cases::new(&input[..n]) {
        show(&rt, c)?;
    }
    Ok(())
}
