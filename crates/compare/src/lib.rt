// Two slices of bytes compared: whether they are the same, and which comes first. The library compares many bytes together.
#![tactic(auto)]

ghost use Rattle.std.specs.Prelude.{◌≡◌};
ghost use Rattle.model.specs.Lists.{same as same_bytes};
ghost use Rattle.compare.specs.Order.{precedes as precedes_in};

// The library's `==` and `cmp`, each said once in the words that all who compare use.

pub fn same(a: &[u8], b: &[u8]) -> bool
    ensures { result ≡ same_bytes a.now b.now }
{
    a == b
}

// Lexicographic order of bytes.
pub fn precedes(a: &[u8], b: &[u8]) -> bool
    ensures { result ≡ precedes_in a.now b.now }
{
    a.cmp(&b).is_lt()
}
