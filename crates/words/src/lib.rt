// Reads the arguments, and the words of a record, a byte at a time: codes in decimal with white space between, or a log sheet, where
// `line` stands before them and `host` ends them.
#![tactic(auto)]

ghost use Rattle.std.specs.Prelude.{◌≡◌, ◌<◌, IfSome};
ghost use Rattle.words.specs.Words.{white, value, two_digits, word_of, word_held, item_at, phase_after, fresh, next, settled, finish, more, read};

pub mod arguments;

// What an argument says, a case for each by its name: with an Option and three bools, `told` of paper would read true and false for names.
#[derive(Clone, Copy)]
pub enum Setting {
    Stop(u8),
    Place(u8),
    PlaceUnknown,
    Letters,
    Figures,
    CaseUnknown,
    SpaceUnshifts,
    SpaceKeeps,
    ReturnUnshifts,
    ReturnKeeps,
}

// How far the record was read: not at all, codes alone, the codes of a log sheet, or past its `host`.
#[derive(Clone, Copy)]
pub enum Phase {
    Start,
    Bare,
    Sheet,
    Ended,
}

// What a word is by itself.
#[derive(Clone, Copy)]
pub enum Word {
    Code(u8),
    Line,
    Host,
}

// A word that is no code, and has no other place where it stands.
#[derive(Clone, Copy)]
pub struct BadWord;

// The bytes of the word that is being read, up to 16 of them, how many they are, up to 17, and which word it is.
// The size stays beside the bytes: no heap, and `read_byte` and `finish` promise what they do for a reader of any size.
#[derive(Clone, Copy)]
pub struct Reader {
    pub held: [u8; 16],
    pub size: usize,
    pub place: u64,
    pub phase: Phase,
}

// The reader after a byte, and what was read: a code, nothing yet, or a bad word.
#[derive(Clone, Copy)]
pub struct Read {
    pub reader: Reader,
    pub item: Result<Option<u8>, BadWord>,
}

// A tab, LF, CR or space.
fn is_white(b: u8) -> bool
    ensures { result ≡ white b }
{
    matches!(b, b' ' | b'\n' | b'\t' | b'\r')
}

// The value of a decimal digit.
fn value(x: u8) -> Option<u8>
    ensures is { result ≡ value x }
    ensures small { IfSome result (λ n. n < 10) }
{
    match x {
        b'0'..=b'9' => Some(x - b'0'),
        _ => None,
    }
}

// A word of two bytes.
fn two_digits(x: u8, y: u8) -> Option<Word>
    ensures { result ≡ two_digits x y }
{
    let c = value(x)? * 10 + value(y)?;
    if c < 32 {
        return Some(Word::Code(c));
    }
    None
}

// What a word is by itself, if it is a code or a name.
fn word_of(s: &[u8]) -> Option<Word>
    ensures { result ≡ word_of s.now }
{
    match s {
        b"line" => Some(Word::Line),
        b"host" => Some(Word::Host),
        [x] => value(*x).map(Word::Code),
        [x, y] => two_digits(*x, *y),
        _ => None,
    }
}

// What a word is where it stands: a code, or a name in its place.
fn item_at(phase: Phase, x: Option<Word>) -> Result<Option<u8>, BadWord>
    ensures { result ≡ item_at phase x }
{
    match (phase, x) {
        (Phase::Ended, _) => Ok(None),
        (Phase::Start, Some(Word::Line)) => Ok(None),
        (Phase::Sheet, Some(Word::Host)) => Ok(None),
        (_, Some(Word::Code(c))) => Ok(Some(c)),
        _ => Err(BadWord),
    }
}

// How far the record is read after a word.
fn phase_after(phase: Phase, x: Option<Word>) -> Phase
    ensures { result ≡ phase_after phase x }
{
    match (phase, x) {
        (Phase::Start, Some(Word::Line)) => Phase::Sheet,
        (Phase::Start, Some(Word::Code(_))) => Phase::Bare,
        (Phase::Sheet, Some(Word::Host)) => Phase::Ended,
        _ => phase,
    }
}

impl Reader {
    // A reader at the start of a record.
    pub fn fresh() -> Reader
        ensures { result ≡ fresh }
    {
        Reader {
            held: [0u8; 16],
            size: 0,
            place: 1,
            phase: Phase::Start,
        }
    }

    // The reader at the next word.
    fn next(self, phase: Phase) -> Reader
        ensures { result ≡ next self phase }
    {
        Reader {
            size: 0,
            place: self.place.saturating_add(1),
            phase,
            ..self
        }
    }

    // The reader after a word; a bad one stays held.
    fn settled(self, item: Result<Option<u8>, BadWord>, phase: Phase) -> Read
        ensures { result ≡ settled item self phase }
    {
        let reader = match item {
            Ok(_) => self.next(phase),
            Err(_) => self,
        };
        Read { reader, item }
    }

    // The word that is held, if it is a code or a name.
    fn word(self) -> Option<Word>
        ensures { result ≡ word_held self }
    {
        word_of(self.held.get(..self.size)?)
    }

    // The reader after white space or at the end of the record.
    pub fn finish(self) -> Read
        ensures { result ≡ finish self }
    {
        if self.size == 0 {
            return Read {
                reader: self,
                item: Ok(None),
            };
        }
        let x = self.word();
        self.settled(item_at(self.phase, x), phase_after(self.phase, x))
    }

    // The reader with one byte more of a word.
    fn more(self, b: u8) -> Reader
        ensures { result ≡ more self b }
    {
        let mut held = self.held;
        if self.size < held.len() {
            held[self.size] = b;
        }
        Reader {
            held,
            size: self.size.saturating_add(1).min(17),
            ..self
        }
    }

    // The reader after a byte.
    pub fn read_byte(self, b: u8) -> Read
        ensures { result ≡ read self b }
    {
        if is_white(b) {
            return self.finish();
        }
        Read {
            reader: self.more(b),
            item: Ok(None),
        }
    }
}
