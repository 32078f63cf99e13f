// Document 01, section 1: source offsets and normalized offsets are two measures of two texts, and a string id is neither, so
// each is a type of its own and nothing here converts one to another. A span is two offsets of one text. Spans and numbers are
// moved by a signed 64-bit amount, on every input as the model's `shifted` and `shift_u32` say: the amount is taken apart once,
// into an `Amount`, and the moving is unsigned. specs/Values.antt has the model's value of each type.
#![tactic(auto)]

ghost use Rattle.std.specs.Prelude.{◌≡◌, ◌<◌, ◌^◌, eqb, pos, ◌-ℤ◌};
ghost use Rattle.model.specs.Offset as model;
ghost use Rattle.span.specs.Values.{span_of, value_of, option_of, IsKindOf};

// An offset in the bytes of a source text.
#[derive(Clone, Copy, Debug, PartialEq, Eq, PartialOrd, Ord, Hash)]
pub struct SourceOffset(pub u32);

// An offset in the bytes of a normalized text.
#[derive(Clone, Copy, Debug, PartialEq, Eq, PartialOrd, Ord, Hash)]
pub struct NormalizedOffset(pub u32);

// The number of a string of a store.
#[derive(Clone, Copy, Debug, PartialEq, Eq, PartialOrd, Ord, Hash)]
pub struct StrId(pub u32);

// A signed amount: Forward(n) is n, Back(n) is -(n + 1).
#[derive(Clone, Copy)]
enum Amount {
    Forward(u64),
    Back(u64),
}

fn amount_of(by: i64) -> Amount
    ensures { value_of result ≡ by }
{
    if by < 0 {
        Amount::Back((-(by + 1)) as u64)
    } else {
        Amount::Forward(by as u64)
    }
}

// a - b
pub fn difference(a: u64, b: u64) -> i64
    requires { (a < 2 ^ 63) × (b < 2 ^ 63) }
    ensures { result ≡ pos a -ℤ pos b }
{
    a as i64 - b as i64
}

// The number, moved and clamped to 0..4294967295.
fn shift_clamp(endpoint: u32, by: Amount) -> u32
    ensures { result ≡ model.shift_clamp endpoint (value_of by) }
{
    match by {
        Amount::Forward(n) => u64::from(endpoint)
            .saturating_add(n)
            .min(u64::from(u32::MAX)) as u32,
        Amount::Back(n) => {
            if n < u64::from(endpoint) {
                (u64::from(endpoint) - n - 1) as u32
            } else {
                0
            }
        }
    }
}

// `shift_u32` by an amount that is taken apart already.
fn shift_by(value: u32, by: Amount) -> Option<u32>
    ensures { option_of result ≡ model.shift_u32 value (value_of by) }
{
    match by {
        Amount::Forward(n) => value.checked_add(u32::try_from(n).ok()?),
        Amount::Back(n) => value.checked_sub(u32::try_from(n).ok()?)?.checked_sub(1),
    }
}

// The number, moved: none outside 0..4294967295.
pub fn shift_u32(value: u32, delta: i64) -> Option<u32>
    ensures { option_of result ≡ model.shift_u32 value delta }
{
    shift_by(value, amount_of(delta))
}

// A span of a source text.
#[derive(Clone, Copy, Debug, PartialEq, Eq, Hash)]
pub struct Span {
    pub start: SourceOffset,
    pub end: SourceOffset,
}

// A span of a normalized text.
#[derive(Clone, Copy, Debug, PartialEq, Eq, Hash)]
pub struct NormalizedSpan {
    pub start: NormalizedOffset,
    pub end: NormalizedOffset,
}

impl Span {
    pub fn is_empty(self) -> bool
        ensures { result ≡ eqb self.start.0 self.end.0 }
    {
        self.start == self.end
    }

    pub fn shifted(self, by: i64) -> Self
        ensures { span_of result ≡ model.shifted (span_of self) by }
    {
        let by = amount_of(by);
        Self {
            start: SourceOffset(shift_clamp(self.start.0, by)),
            end: SourceOffset(shift_clamp(self.end.0, by)),
        }
    }
}

// The family of two delimiters.
#[derive(Clone, Copy, Debug, PartialEq, Eq, Hash)]
pub enum PairKind {
    Bracket,
    Ruby,
    AngleQuote,
    Tortoise,
    Quote,
}

// A number that no pair kind has.
#[derive(Clone, Copy, Debug, PartialEq, Eq, Hash)]
pub struct UnknownPairKind(pub u8);

impl TryFrom<u8> for PairKind {
    type Error = UnknownPairKind;

    ghost try_from_gives = { IsKindOf };

    fn try_from(n: u8) -> Result<Self, UnknownPairKind> {
        match n {
            0 => Ok(PairKind::Bracket),
            1 => Ok(PairKind::Ruby),
            2 => Ok(PairKind::AngleQuote),
            3 => Ok(PairKind::Tortoise),
            4 => Ok(PairKind::Quote),
            _ => Err(UnknownPairKind(n)),
        }
    }
}
