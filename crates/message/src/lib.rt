// Status messages: made into a lent buffer, and found among any bytes.
#![tactic(auto)]

ghost use Rattle.std.specs.Prelude.{◌≡◌, ◌+◌, ◌≤◌, ◌∷◌, length};
ghost use Rattle.message.specs.Message.{digits, marked, framed};
ghost use Rattle.message.specs.Made.{made_count, Made, Put};
ghost use Rattle.message.specs.Scan.{ended, whole, more, scan, complete, numbers_from, ends_here, message_at};
ghost use Rattle.message.specs.Located.{Located, HandsBack};

// How many of the numbers of a message are read: none, the id, or also the second, which says how many have to come yet.
#[derive(Clone, Copy)]
pub enum Phase {
    First,
    Second,
    Rest(u8),
}

impl Phase {
    // What has to come after a number of this value has ended; nothing where that is one more than the second said.
    fn ended(self, v: u8) -> Option<Phase>
        ensures { result ≡ ended self v }
    {
        match self {
            Phase::First => Some(Phase::Second),
            Phase::Second => Some(Phase::Rest(v)),
            Phase::Rest(0) => None,
            Phase::Rest(n) => Some(Phase::Rest(n - 1)),
        }
    }

    // Whether as many numbers came as the second said.
    fn is_whole(self) -> bool
        ensures { result ≡ whole self }
    {
        matches!(self, Phase::Rest(0))
    }

    // One digit more of a number that is begun, of this value so far, if it is a number still.
    fn more(self, v: u8, b: u8) -> Option<Scan>
        requires { (48 ≤ b) × (b ≤ 57) }
        ensures { result ≡ more self v b }
    {
        if v == 0 {
            return None;
        }
        let n = v.checked_mul(10)?.checked_add(b - b'0')?;
        Some(Scan::In(self, n))
    }
}

// How far the numbers of a message are read, byte by byte. Opening: a comma has to come. Comma: a digit has to come. In: in a
// number, of this value so far.
#[derive(Clone, Copy)]
pub enum Scan {
    Opening,
    Comma(Phase),
    In(Phase, u8),
}

impl Scan {
    // One byte more of what has to be the numbers of a message, if it is still.
    fn next(self, b: u8) -> Option<Scan>
        ensures { result ≡ scan self b }
    {
        match self {
            Scan::Opening if b == b',' => Some(Scan::Comma(Phase::First)),
            Scan::Comma(p) if b.is_ascii_digit() => Some(Scan::In(p, b - b'0')),
            Scan::In(p, v) if b == b',' => p.ended(v).map(Scan::Comma),
            Scan::In(p, v) if b.is_ascii_digit() => p.more(v, b),
            _ => None,
        }
    }

    // Whether the numbers may end here.
    fn is_complete(self) -> bool
        ensures { result ≡ complete self }
    {
        matches!(self, Scan::In(p, v) if p.ended(v).is_some_and(Phase::is_whole))
    }
}

// The stretch of a message, from its hyphen to its last digit.
#[derive(Clone, Copy)]
pub struct Place {
    pub start: usize,
    pub len: usize,
}

// The four bytes that every message begins with after its CR LF.
const MARK: [u8; 4] = *b"-.TC";

// How many digits a number has.
// By ranges, as `digits` has them: `ilog10` answers nothing for 0, so that it would be no plainer.
#[tactic(auto, unfolding(crate::specs::Message::digits))]
fn width(n: u8) -> usize
    ensures { result ≡ length (digits n) }
{
    match n {
        0..=9 => 1,
        10..=99 => 2,
        _ => 3,
    }
}

// The bytes of `word` from `at` in `out`. Gives the place after them.
// The buffer and the place in it stay two parameters: `Put`, which this promises, names both.
pub fn put(word: &[u8], out: &mut [u8], at: usize) -> usize
    requires { at + length word.now ≤ length out.old }
    ensures { Put out.old at word.now out.new result }
{
    let end = at + word.len();
    laws::copy(word, &mut out[at..end]);
    end
}

// A mark and the digits of a number from `at` in `out`. Gives the place after them.
// Digits by hand: std promises the bytes that `write!` writes for a `String` alone, and the box has no heap.
#[tactic(auto, unfolding(crate::specs::Message::digits))]
fn put_number(mark: u8, n: u8, out: &mut [u8], at: usize) -> usize
    requires { at + length (mark ∷ digits n) ≤ length out.old }
    ensures { Put out.old at (mark ∷ digits n) out.new result }
{
    match n {
        0..=9 => put(&[mark, b'0' + n], out, at),
        10..=99 => put(&[mark, b'0' + n / 10, b'0' + n % 10], out, at),
        _ => put(
            &[mark, b'0' + n / 100, b'0' + n / 10 % 10, b'0' + n % 10],
            out,
            at,
        ),
    }
}

// A mark and the digits of each number from `at` in `out`. Gives the place after them.
pub fn put_numbers(mark: u8, ns: &[u8], out: &mut [u8], at: usize) -> usize
    requires { at + length (marked mark ns.now) ≤ length out.old }
    ensures { Put out.old at (marked mark ns.now) out.new result }
{
    let mut k = at;
    for n in ns {
        k = put_number(mark, *n, out, k);
    }
    k
}

// The length of the message of these numbers, if `room` is enough for it.
#[tactic(auto, using(crate::proofs::Digits::digits_few))]
fn size(ns: &[u8], room: usize) -> Option<usize>
    ensures { result ≡ made_count ns.now room }
{
    let mut n: usize = 8;
    for v in ns {
        if room < n {
            return None;
        }
        n = n.checked_add(1 + width(*v))?;
    }
    (n <= room).then_some(n)
}

// The message of these numbers at the front of `out`, which has room for it. Gives the place after it.
fn put_message(ns: &[u8], out: &mut [u8]) -> usize
    requires { length (framed ns.now) ≤ length out.old }
    ensures { Put out.old 0 (framed ns.now) out.new result }
{
    let a = put(b"\r\n", out, 0);
    let b = put(&MARK, out, a);
    let c = put_numbers(b',', ns, out, b);
    put(b"\r\n", out, c)
}

// The message of these numbers at the front of `out`, and its length; nothing, and `out` as it was, where it has no room for it.
pub fn make(ns: &[u8], out: &mut [u8]) -> Option<usize>
    ensures { Made ns.now out.old out.new result }
{
    size(ns, out.len())?;
    Some(put_message(ns, out))
}

// The `k` bytes of numbers before these, if the numbers may end here and CR LF follows.
fn ends_at(s: &[u8], st: Scan, k: usize) -> Option<usize>
    ensures { result ≡ ends_here st k s.now }
{
    (s.starts_with(b"\r\n") && st.is_complete()).then_some(k)
}

// How many bytes the numbers take that these begin with, up to a CR LF, if they are those of a message.
#[tactic(auto, using(crate::proofs::Turns::numbers_next))]
fn numbers_at(s: &[u8]) -> Option<usize>
    ensures { result ≡ numbers_from Scan.Opening 0 s.now }
{
    let mut st = Scan::Opening;
    for (k, b) in s.iter().enumerate() {
        if *b == b'\r' {
            return ends_at(&s[k..], st, k);
        }
        st = st.next(*b)?;
    }
    None
}

// How many bytes the numbers take of the message that these begin with, if they begin with one.
fn message_at(s: &[u8]) -> Option<usize>
    ensures { result ≡ message_at s.now }
{
    let [b'\r', b'\n', rest @ ..] = s else {
        return None;
    };
    numbers_at(rest.strip_prefix(&MARK)?)
}

// Where the earliest complete message stands, from its hyphen to its last digit, if one does.
pub fn locate(s: &[u8]) -> Option<Place>
    ensures { Located s.now result }
{
    for i in 0..s.len() {
        // What is no CR is passed over here: asked of `message_at`, bytes with no CR took nearly twice as long.
        if s[i] == b'\r' {
            if let Some(k) = message_at(&s[i..]) {
                return Some(Place {
                    start: i + 2,
                    len: 4 + k,
                });
            }
        }
    }
    None
}

// That very stretch of the bytes, from the hyphen to the last digit of the earliest complete message; empty where there is none.
pub fn find(s: &[u8]) -> &[u8]
    ensures { HandsBack s.entry result }
{
    match locate(s) {
        Some(p) => {
            let end = p.start + p.len;
            &s[p.start..end]
        }
        None => &s[..0],
    }
}
