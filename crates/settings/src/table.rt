// The table of ids in code, and the ranges of values.
ghost use Rattle.std.specs.Prelude.{◌≡◌, true, [], ◌∷◌, take};
ghost use Rattle.settings.specs.Names.{Linked, Value, Signal};
ghost use Rattle.settings.specs.Table.{between, is_speed, is_power, in_range, row, is_connection, width, taken_by};

use crate::string::{sound_signal, sound_string};
use crate::{Home, Row};
use command::Verb;

// A row.
fn is(number: u8, home: Home, written: bool, read: bool) -> Row
    ensures { result ≡ record { number = number; home = home; written = written; read = read } }
{
    Row {
        number,
        home,
        written,
        read,
    }
}

// An option, which can be written and read: its id, its place, its least and its greatest value.
fn option(number: u8, place: u8, low: u8, high: u8) -> Row
    ensures { result ≡ record { number = number; home = Value place low high; written = true; read = true } }
{
    is(number, Home::Value(place, low, high), true, true)
}

// A string of 91 to 95, which can be written and read: its id and its place.
fn signal(number: u8, place: u8) -> Row
    ensures { result ≡ record { number = number; home = Signal place; written = true; read = true } }
{
    is(number, Home::Signal(place), true, true)
}

// The row of an id.
#[tactic(auto, unfolding(crate::specs::Table::row))]
pub fn row(id: u8) -> Row
    ensures { result ≡ row id }
{
    match id {
        0 => is(0, Home::Version, false, true),
        1 => is(1, Home::Linked(4), true, true),
        4 => is(4, Home::Linked(3), true, false),
        10 => is(10, Home::Unlinked, true, false),
        11 => is(11, Home::Unlinked, true, false),
        49 => option(49, 0, 0, 1),
        50 => option(50, 1, 10, 80),
        53 => is(53, Home::Power, true, true),
        70 => option(70, 2, 0, 1),
        71 => option(71, 3, 0, 1),
        72 => option(72, 4, 0, 1),
        74 => option(74, 5, 0, 1),
        77 => option(77, 6, 0, 126),
        90 => is(90, Home::String, true, true),
        91 => signal(91, 0),
        92 => signal(92, 1),
        93 => signal(93, 2),
        94 => signal(94, 3),
        95 => signal(95, 4),
        250 => is(250, Home::Factory, true, false),
        _ => is(0, Home::Nowhere, false, false),
    }
}

// Whether a number lies in a range.
pub fn is_between(low: u8, high: u8, n: u8) -> bool
    ensures { result ≡ between low high n }
{
    (low <= n) & (n <= high)
}

// Whether a number is a speed.
fn is_speed(n: u8) -> bool
    ensures { result ≡ is_speed n }
{
    matches!(n, 60 | 66 | 75 | 100)
}

// Whether a number is a motor power mode.
pub fn is_power(n: u8) -> bool
    ensures { result ≡ is_power n }
{
    matches!(n, 0 | 2 | 4..=6)
}

// Whether two numbers are a port, from 1 to the last, and a speed.
pub fn is_link(last: u8, port: u8, speed: u8) -> bool
    ensures { result ≡ in_range (Linked last) (port ∷ speed ∷ []) }
{
    is_between(1, last, port) & is_speed(speed)
}

// The first eight parameters.
pub fn first_eight(ps: [u8; 9]) -> [u8; 8]
    ensures { result ≡ take 8 ps }
{
    let [a, b, c, d, e, f, g, h, _] = ps;
    [a, b, c, d, e, f, g, h]
}

impl Home {
    // Whether an id names the connection.
    pub(crate) fn is_connection(self) -> bool
        ensures { result ≡ is_connection self }
    {
        matches!(self, Home::Linked(_) | Home::Unlinked)
    }

    // How many values an id has.
    pub(crate) fn width(self) -> u8
        ensures { result ≡ width self }
    {
        match self {
            Home::Version => 4,
            Home::Linked(_) => 2,
            Home::Value(_, _, _) | Home::Power => 1,
            Home::String | Home::Signal(_) => 8,
            Home::Unlinked | Home::Factory | Home::Nowhere => 0,
        }
    }

    // Whether the parameters of an id are in its range.
    pub(crate) fn in_range(self, ps: [u8; 9]) -> bool
        ensures { result ≡ in_range self ps }
    {
        let first = ps[0];
        match self {
            Home::Linked(last) => is_link(last, first, ps[1]),
            Home::Value(_, low, high) => is_between(low, high, first),
            Home::String => sound_string(first_eight(ps)),
            Home::Power => is_power(first),
            Home::Signal(_) => sound_signal(first_eight(ps)),
            Home::Version | Home::Unlinked | Home::Factory | Home::Nowhere => true,
        }
    }
}

impl Row {
    // How many parameters a command of this type has, if it can be given.
    pub(crate) fn taken_by(self, v: Verb) -> Option<u8>
        ensures { result ≡ taken_by v self }
    {
        match v {
            Verb::Write => self.written.then_some(self.home.width()),
            Verb::Read => self.read.then_some(0),
            Verb::Other => None,
        }
    }
}
