// The motor: the last codes heard, held against the strings that start and stop it.
#![tactic(auto)]

ghost use Rattle.std.specs.Prelude.{◌≡◌, ◌<◌, ◌≤◌};
ghost use Rattle.motor.specs.Motor.{heard_with, size, latest, matches, signal, comes, starts, later, while_on, while_off, turned, hearing, is_on, resting, sound_run, sound_motor};

use settings::Calling;

// Whether it runs: off; off, and the first string 93 that counts ended so many codes ago, staying at 8; on.
#[derive(Clone, Copy, PartialEq, Eq)]
pub enum Run {
    Off,
    Called(u8),
    On,
}

// The last eight codes heard as one number, the last one highest and 0 where none was, and whether the motor runs.
#[derive(Clone, Copy)]
pub struct Motor {
    pub heard: u64,
    pub run: Run,
}

// How a station is called, and the last codes heard, against which its strings are held.
#[derive(Clone, Copy)]
struct Listener {
    calling: Calling,
    heard: u64,
}

// Off, and nothing heard.
pub fn resting() -> Motor
    ensures { result ≡ resting }
{
    Motor {
        heard: 0,
        run: Run::Off,
    }
}

// The last codes heard with one more.
fn heard_with(heard: u64, c: u8) -> u64
    ensures { result ≡ heard_with heard c }
{
    heard / 32 + 34359738368 * u64::from(c % 32)
}

// How many codes a string has.
fn size(string: u64) -> u8
    ensures { (result ≡ size string) × (result ≤ 8) }
{
    let mut rest = string;
    for n in 0..8 {
        if rest == 0 {
            return n;
        }
        rest /= 32;
    }
    8
}

// The last n of the codes heard, at most eight.
// Not by a shift that a variable counts: `word::unpack` says why.
fn latest(heard: u64, n: u8) -> u64
    ensures { result ≡ latest n heard }
{
    let mut rest = heard;
    for _ in n..8 {
        rest /= 32;
    }
    rest
}

// Whether the last codes heard are a string's; an empty string never matches.
fn matches(string: u64, heard: u64) -> bool
    ensures { result ≡ matches string heard }
{
    (0 < string) & (latest(heard, size(string)) == string)
}

// One code later, staying at 8.
fn later(n: u8) -> u8
    ensures { result ≡ later n }
{
    n.saturating_add(1).min(8)
}

impl Listener {
    // Whether the last codes heard are those of the string at a place.
    fn hears(&self, place: usize) -> bool
        requires { place < 5 }
        ensures { result ≡ matches (signal self.now.calling place) self.now.heard }
    {
        matches(self.calling.strings[place], self.heard)
    }

    // Whether they are, and all of them came among the last n.
    fn comes(&self, place: usize, n: u8) -> bool
        requires { place < 5 }
        ensures { result ≡ comes (signal self.now.calling place) self.now.heard n }
    {
        self.hears(place) & (size(self.calling.strings[place]) <= n)
    }

    // Whether a motor that is off starts: by the motor power mode, n codes after the first string 93 that counts.
    // 0 stands for no such string, since `starts` of Motor.antt has it so, and no string comes within 0 codes.
    // The modes stay the paper's numbers of id 53: `starts` has them so, and a state that is not sound holds any byte there.
    fn starts(&self, n: u8) -> bool
        ensures { result ≡ starts self.now.calling self.now.heard n }
    {
        match self.calling.power {
            2 => self.hears(0),
            4 => self.comes(3, n),
            5 => self.comes(4, n),
            6 => self.comes(3, n) | self.comes(4, n),
            _ => false,
        }
    }

    // A motor that is on, after a code.
    fn while_on(&self) -> Run
        ensures { result ≡ while_on self.now.calling self.now.heard }
    {
        if self.hears(1) { Run::Off } else { Run::On }
    }

    // A motor that is off, that no string 93 has called and that does not start, after a code.
    fn while_off(&self) -> Run
        ensures { result ≡ while_off self.now.calling self.now.heard }
    {
        if self.hears(2) {
            Run::Called(0)
        } else {
            Run::Off
        }
    }

    // Whether the motor runs, after a code.
    fn turned(&self, r: Run) -> Run
        ensures { result ≡ turned self.now.calling self.now.heard r }
    {
        match r {
            Run::On => self.while_on(),
            Run::Off if self.starts(0) => Run::On,
            Run::Off => self.while_off(),
            Run::Called(n) if self.starts(later(n)) => Run::On,
            Run::Called(n) => Run::Called(later(n)),
        }
    }
}

// The motor after one more code.
pub fn hear(k: Calling, m: Motor, c: u8) -> Motor
    ensures { result ≡ hearing k m c }
{
    let heard = heard_with(m.heard, c);
    let listener = Listener { calling: k, heard };
    Motor {
        heard,
        run: listener.turned(m.run),
    }
}

// Whether it is on.
pub fn is_on(r: Run) -> bool
    ensures { result ≡ is_on r }
{
    matches!(r, Run::On)
}

// Whether its count is at most 8.
fn sound_run(r: Run) -> bool
    ensures { result ≡ sound_run r }
{
    match r {
        Run::Called(n) => n <= 8,
        Run::Off | Run::On => true,
    }
}

// Whether it is sound: eight codes heard, and a count of at most 8.
pub fn is_sound(m: Motor) -> bool
    ensures { result ≡ sound_motor m }
{
    word::is_word(m.heard) & sound_run(m.run)
}
