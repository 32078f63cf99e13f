// The answers of the entries as C has them: a `Result` as a struct of numbers. In every answer `number` is 0 or the number of the refusal, and what an
// answer does not have is 0. A caller in C or Rust declares these structs again.
#![tactic(auto)]

ghost use Rattle.std.specs.Prelude.{◌≡◌};
ghost use Rattle.refusal.specs.Refusal.{number_in, checked, checked_map};
ghost use Rattle.span.specs.Values.{span_of};
ghost use Rattle.output.specs.Answer.{answers_of};
ghost use Rattle.answers.specs.Answers.{allowed_answer, node_answer, range_answer, str_answer, copy_answer, region_answer, price_answer, merge_answer, orders_answer};

use copy::Copied;
use estimate::Price;
use lookup::{RangeAt, StrAt};
use output::{BothOrders, IncrementalOutput};
use refusal::Refusal;
use span::Span;

#[repr(C)]
#[derive(Clone, Copy)]
pub struct AllowedAnswer {
    pub number: u32,
    pub allowed: bool,
}

// The node's place in the list, where one is found.
#[repr(C)]
#[derive(Clone, Copy)]
pub struct NodeAnswer {
    pub number: u32,
    pub found: bool,
    pub node: usize,
}

// Where the first record of a range stands in the tape, and how many they are.
#[repr(C)]
#[derive(Clone, Copy)]
pub struct RangeAnswer {
    pub number: u32,
    pub found: bool,
    pub place: usize,
    pub count: u32,
}

// Where a string starts and ends in the byte buffer.
#[repr(C)]
#[derive(Clone, Copy)]
pub struct StrAnswer {
    pub number: u32,
    pub found: bool,
    pub start: usize,
    pub end: usize,
}

// How many bytes of the two result buffers the book takes, a copy or a flat one.
#[repr(C)]
#[derive(Clone, Copy)]
pub struct CopyAnswer {
    pub number: u32,
    pub tape: usize,
    pub bytes: usize,
}

// The region in offsets of the old text.
#[repr(C)]
#[derive(Clone, Copy)]
pub struct RegionAnswer {
    pub number: u32,
    pub start: u32,
    pub end: u32,
}

// What a merge would make: the reading's nodes, calls of `intern`, contents and segments added, and the length of the byte buffer without
// the new layer's strings.
#[repr(C)]
#[derive(Clone, Copy)]
pub struct PriceAnswer {
    pub number: u32,
    pub reread: u32,
    pub calls: u32,
    pub contents: u32,
    pub segments: u32,
    pub bytes: usize,
}

// What a merge answers: the region in offsets of the old text, old nodes kept, the reading's nodes, the seven counts, and how many bytes of
// the two result buffers the book takes.
#[repr(C)]
#[derive(Clone, Copy, Default)]
pub struct MergeAnswer {
    pub number: u32,
    pub start: u32,
    pub end: u32,
    pub reused: u32,
    pub reread: u32,
    pub calls: u64,
    pub cache_hits: u64,
    pub table_hits: u64,
    pub allocs: u64,
    pub long_bypass: u64,
    pub resizes: u64,
    pub probe_steps: u64,
    pub tape: usize,
    pub bytes: usize,
}

// What the four merges answer.
#[repr(C)]
#[derive(Clone, Copy)]
pub struct OrdersAnswer {
    pub earlier_first: MergeAnswer,
    pub later_second: MergeAnswer,
    pub later_first: MergeAnswer,
    pub earlier_second: MergeAnswer,
}

// The number of an answer that is nothing else: 0 where it is accepted.
pub fn number_answer(a: Result<(), Refusal>) -> u32
    ensures { result ≡ number_in a }
{
    match a {
        Ok(()) => 0,
        Err(refusal) => u32::from(refusal),
    }
}

// Each answer names all of its fields, as C's struct has them: by `Default` a field that is forgotten would be 0 and not be missed.

impl From<Result<bool, Refusal>> for AllowedAnswer {
    ghost from_gives = { λ a r. r ≡ allowed_answer (checked a) };

    fn from(a: Result<bool, Refusal>) -> AllowedAnswer {
        match a {
            Ok(allowed) => AllowedAnswer { number: 0, allowed },
            Err(refusal) => AllowedAnswer {
                number: u32::from(refusal),
                allowed: false,
            },
        }
    }
}

impl From<Result<Option<usize>, Refusal>> for NodeAnswer {
    ghost from_gives = { λ a r. r ≡ node_answer (checked a) };

    fn from(a: Result<Option<usize>, Refusal>) -> NodeAnswer {
        match a {
            Ok(Some(node)) => NodeAnswer {
                number: 0,
                found: true,
                node,
            },
            Ok(None) => NodeAnswer {
                number: 0,
                found: false,
                node: 0,
            },
            Err(refusal) => NodeAnswer {
                number: u32::from(refusal),
                found: false,
                node: 0,
            },
        }
    }
}

impl From<Result<Option<RangeAt>, Refusal>> for RangeAnswer {
    ghost from_gives = { λ a r. r ≡ range_answer (checked a) };

    fn from(a: Result<Option<RangeAt>, Refusal>) -> RangeAnswer {
        match a {
            Ok(Some(RangeAt { place, count })) => RangeAnswer {
                number: 0,
                found: true,
                place,
                count,
            },
            Ok(None) => RangeAnswer {
                number: 0,
                found: false,
                place: 0,
                count: 0,
            },
            Err(refusal) => RangeAnswer {
                number: u32::from(refusal),
                found: false,
                place: 0,
                count: 0,
            },
        }
    }
}

impl From<Result<Option<StrAt>, Refusal>> for StrAnswer {
    ghost from_gives = { λ a r. r ≡ str_answer (checked a) };

    fn from(a: Result<Option<StrAt>, Refusal>) -> StrAnswer {
        match a {
            Ok(Some(StrAt { start, end })) => StrAnswer {
                number: 0,
                found: true,
                start,
                end,
            },
            Ok(None) => StrAnswer {
                number: 0,
                found: false,
                start: 0,
                end: 0,
            },
            Err(refusal) => StrAnswer {
                number: u32::from(refusal),
                found: false,
                start: 0,
                end: 0,
            },
        }
    }
}

impl From<Result<Copied, Refusal>> for CopyAnswer {
    ghost from_gives = { λ a r. r ≡ copy_answer (checked a) };

    fn from(a: Result<Copied, Refusal>) -> CopyAnswer {
        match a {
            Ok(Copied { tape, bytes }) => CopyAnswer {
                number: 0,
                tape,
                bytes,
            },
            Err(refusal) => CopyAnswer {
                number: u32::from(refusal),
                tape: 0,
                bytes: 0,
            },
        }
    }
}

impl From<Result<Span, Refusal>> for RegionAnswer {
    ghost from_gives = { λ a r. r ≡ region_answer (checked_map span_of (checked a)) };

    fn from(a: Result<Span, Refusal>) -> RegionAnswer {
        match a {
            Ok(Span { start, end }) => RegionAnswer {
                number: 0,
                start: start.0,
                end: end.0,
            },
            Err(refusal) => RegionAnswer {
                number: u32::from(refusal),
                start: 0,
                end: 0,
            },
        }
    }
}

impl From<Result<Price, Refusal>> for PriceAnswer {
    ghost from_gives = { λ a r. r ≡ price_answer (checked a) };

    fn from(a: Result<Price, Refusal>) -> PriceAnswer {
        match a {
            Ok(
                Price {
                    reread,
                    calls,
                    contents,
                    segments,
                    bytes,
                },
            ) => PriceAnswer {
                number: 0,
                reread,
                calls,
                contents,
                segments,
                bytes,
            },
            Err(refusal) => PriceAnswer {
                number: u32::from(refusal),
                reread: 0,
                calls: 0,
                contents: 0,
                segments: 0,
                bytes: 0,
            },
        }
    }
}

impl From<Result<IncrementalOutput, Refusal>> for MergeAnswer {
    ghost from_gives = { λ a r. r ≡ merge_answer (checked a) };

    fn from(a: Result<IncrementalOutput, Refusal>) -> MergeAnswer {
        match a {
            Ok(a) => MergeAnswer {
                number: 0,
                start: a.start,
                end: a.end,
                reused: a.reused,
                reread: a.reread,
                calls: a.stats.calls,
                cache_hits: a.stats.cache_hits,
                table_hits: a.stats.table_hits,
                allocs: a.stats.allocs,
                long_bypass: a.stats.long_bypass,
                resizes: a.stats.resizes,
                probe_steps: a.stats.probe_steps,
                tape: a.tape,
                bytes: a.bytes,
            },
            Err(refusal) => MergeAnswer {
                number: u32::from(refusal),
                ..MergeAnswer::default()
            },
        }
    }
}

impl From<BothOrders> for OrdersAnswer {
    ghost from_gives = { λ a r. r ≡ orders_answer (answers_of a) };

    fn from(a: BothOrders) -> OrdersAnswer {
        OrdersAnswer {
            earlier_first: MergeAnswer::from(a.earlier_first),
            later_second: MergeAnswer::from(a.later_second),
            later_first: MergeAnswer::from(a.later_first),
            earlier_second: MergeAnswer::from(a.earlier_second),
        }
    }
}
