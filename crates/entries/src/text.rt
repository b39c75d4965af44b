// The text of a vector: fields with a bar after each, bytes with escapes, and numbers.
ghost use Rattle.std.specs.Prelude.{◌≡◌, ◌+◌, ◌*◌, ◌%◌, ◌≤◌, ◌<◌, length, get_or, take};
ghost use Rattle.laws.specs.Written.{fronted};
ghost use Rattle.entries.specs.Text.{index_of, before_bar, after_bar, digit, hex, escaped, decimal, first_piece, decoded};

// How bytes are spelled: each as itself or by an escape, or each in decimal after a space.
#[derive(Clone, Copy)]
pub enum Form {
    Escaped,
    Decimal,
}

// A byte that a text begins with, and how many bytes it is spelled with.
#[derive(Clone, Copy)]
pub struct Piece {
    pub byte: u8,
    pub width: usize,
}

// The byte at a place, 0 past the end.
pub fn byte_at(s: &[u8], at: usize) -> u8
    ensures { result ≡ get_or s.now at 0 }
{
    s.get(at).copied().unwrap_or(0)
}

// The value of a hexadecimal digit, 0 where it is none.
fn digit(x: u8) -> u8
    ensures { (result < 16) × (result ≡ digit x) }
{
    match x {
        b'0'..=b'9' => x - b'0',
        b'A'..=b'F' => x - b'A' + 10,
        _ => 0,
    }
}

// The value of two hexadecimal digits.
pub fn hex(high: u8, low: u8) -> u8
    ensures { result ≡ hex high low }
{
    digit(high) * 16 + digit(low)
}

// The first n bytes, or all where there are fewer.
pub fn front(s: &[u8], n: usize) -> &[u8]
    ensures { result.now ≡ take n s.now }
{
    s.get(..n).unwrap_or(s)
}

// Where a byte first stands, or the length where it stands nowhere.
pub fn find(s: &[u8], x: u8) -> usize
    ensures { (result ≤ length s.now) × (result ≡ index_of x s.now) }
{
    s.iter().position(|y| *y == x).unwrap_or(s.len())
}

// What stands before the first bar, or all where there is none.
pub fn before_bar(s: &[u8]) -> &[u8]
    ensures { result.now ≡ before_bar s.now }
{
    &s[..find(s, b'|')]
}

// What stands after the first bar, or nothing where there is none.
pub fn after_bar(s: &[u8]) -> &[u8]
    ensures { result.now ≡ after_bar s.now }
{
    s.get(find(s, b'|') + 1..).unwrap_or(&[])
}

// The last eight bits of a number of three digits.
fn three(a: u8, b: u8, c: u8) -> u8
    requires { (a < 16) × (b < 16) × (c < 16) }
    ensures { result ≡ (a * 100 + b * 10 + c) % 256 }
{
    let n = u32::from(a) * 100 + u32::from(b) * 10 + u32::from(c);
    (n % 256) as u8
}

// The number after the first space, of one to three digits.
fn decimal(s: &[u8]) -> Piece
    ensures { result ≡ decimal s.now }
{
    let x = byte_at(s, 1);
    let y = byte_at(s, 2);
    let z = byte_at(s, 3);
    if y < b'0' {
        return Piece {
            byte: digit(x),
            width: 2,
        };
    }
    if z < b'0' {
        return Piece {
            byte: digit(x) * 10 + digit(y),
            width: 3,
        };
    }
    Piece {
        byte: three(digit(x), digit(y), digit(z)),
        width: 4,
    }
}

// The first byte: `\r` is CR, `\n` is LF, `\xNN` is the value of two digits, any other escape is the byte itself.
fn escaped(s: &[u8]) -> Piece
    ensures { result ≡ escaped s.now }
{
    let x = byte_at(s, 0);
    if x != b'\\' {
        return Piece { byte: x, width: 1 };
    }
    match byte_at(s, 1) {
        b'r' => Piece {
            byte: b'\r',
            width: 2,
        },
        b'n' => Piece {
            byte: b'\n',
            width: 2,
        },
        b'x' => Piece {
            byte: hex(byte_at(s, 2), byte_at(s, 3)),
            width: 4,
        },
        y => Piece { byte: y, width: 2 },
    }
}

// The first byte in a form.
fn first_piece(form: Form, s: &[u8]) -> Piece
    ensures { result ≡ first_piece form s.now }
{
    match form {
        Form::Escaped => escaped(s),
        Form::Decimal => decimal(s),
    }
}

// The bytes that a text spells, at the front of a buffer, as many as have room; and how many they are.
pub fn decode(form: Form, s: &[u8], out: &mut [u8]) -> usize
    ensures { (result ≡ length (decoded form s.now (length out.old))) × (out.new ≡ fronted out.old (decoded form s.now (length out.old))) }
{
    let mut rest = s;
    for (k, place) in out.iter_mut().enumerate() {
        if rest.is_empty() {
            return k;
        }
        let p = first_piece(form, rest);
        *place = p.byte;
        rest = rest.get(p.width..).unwrap_or(&[]);
    }
    out.len()
}
