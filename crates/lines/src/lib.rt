// A line in a lent buffer, for the programs that print one. It is put part by part, and a part that has room cannot fail. Of what stands
// in the buffer behind the line nothing is said.
#![tactic(auto)]

ghost use Rattle.std.specs.Prelude.{◌≡◌, [], ◌+◌, ◌*◌, ◌≤◌, ◌<◌, length};
ghost use Rattle.io.specs.Digits.{hex_digit_ascii};
ghost use Rattle.lines.specs.Text.{numbered, refused_line};
ghost use Rattle.lines.specs.Quoted.{is_plain, escaped, escapes, quoted};

// The first `len` bytes of the buffer.
#[derive(Drop)]
pub struct Line<'a> {
    pub out: &'a mut [u8],
    pub len: usize,
    ghost inside: { len ≤ length out.now },
}

impl<'a> Line<'a> {
    ghost use Rattle.lines.specs.Put.{written, room, Put};

    // An empty line.
    pub fn new(out: &'a mut [u8]) -> Line<'a>
        ensures { (written result ≡ []) × (room result ≡ length out.old) }
    {
        Line { out, len: 0 }
    }

    // What was put.
    #[tactic(auto, unfolding(crate::specs::Put::written))]
    pub fn written(&self) -> &[u8]
        ensures { result.now ≡ written self.now }
    {
        &self.out[..self.len]
    }

    // The line begins anew.
    pub fn clear(&mut self)
        ensures { (written self.new ≡ []) × (room self.new ≡ length self.old.out.now) }
    {
        self.len = 0;
    }

    pub fn put_text(&mut self, text: &[u8])
        requires { length text.now ≤ room self.old }
        ensures { Put self.old self.new (length text.now) text.now }
    {
        wire::copy_at(self.out, self.len, text);
        self.len += text.len();
    }

    // A label and a number, which has at most 20 digits.
    pub fn put_number(&mut self, label: &[u8], n: u64)
        requires { length label.now + 20 ≤ room self.old }
        ensures { Put self.old self.new (length label.now + 20) (numbered label.now n) }
    {
        let mut digits = [0u8; 20];
        let k = io::decimal(n, &mut digits);
        self.put_text(label);
        self.put_text(&digits[..k]);
    }

    // `refused N`, and a newline. By the number, as it was from the first: a `Refusal` would take fewer.
    pub fn put_refused(&mut self, n: u32)
        requires { 29 ≤ room self.old }
        ensures { Put self.old self.new 29 (refused_line n) }
    {
        self.put_number(b"refused ", u64::from(n));
        self.put_text(b"\n");
    }

    // Newline as \n, quote and backslash behind a backslash, other control characters as \xNN; UTF-8 is left as it is.
    fn put_escaped(&mut self, b: u8)
        requires { 4 ≤ room self.old }
        ensures { Put self.old self.new 4 (escaped b) }
    {
        match b {
            b'\n' => self.put_text(b"\\n"),
            b'"' => self.put_text(b"\\\""),
            b'\\' => self.put_text(b"\\\\"),
            _ if is_plain(b) => self.put_text(&[b]),
            _ => self.put_text(&[b'\\', b'x', hex_digit(b / 16), hex_digit(b % 16)]),
        }
    }

    fn put_escapes(&mut self, s: &[u8])
        requires { 4 * length s.now ≤ room self.old }
        ensures { Put self.old self.new (4 * length s.now) (escapes s.now) }
    {
        for b in s {
            self.put_escaped(*b);
        }
    }

    // A string in quotes: each byte takes at most four.
    pub fn put_quoted(&mut self, s: &[u8])
        requires { 4 * length s.now + 2 ≤ room self.old }
        ensures { Put self.old self.new (4 * length s.now + 2) (quoted s.now) }
    {
        self.put_text(b"\"");
        self.put_escapes(s);
        self.put_text(b"\"");
    }
}

#[tactic(auto, using(std::proofs::lemmas::Bool::Decides::nat_tests), unfolding(crate::specs::Quoted::is_plain))]
fn is_plain(b: u8) -> bool
    ensures { result ≡ is_plain b }
{
    32 <= b && b != 127
}

// A byte in two digits would be formatted to a stream, which may fail; a line with room does not.
#[tactic(auto, using(std::proofs::lemmas::Bool::Decides::nat_tests))]
fn hex_digit(d: u8) -> u8
    requires { d < 16 }
    ensures { result ≡ hex_digit_ascii d }
{
    if d < 10 { b'0' + d } else { b'a' + (d - 10) }
}
