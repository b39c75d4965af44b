// Reads an argument: what it says of the printer, or of the start of the record.
ghost use Rattle.std.specs.Prelude.{◌≡◌};
ghost use Rattle.words.specs.Arguments.{pushed, number, number_after, numbered, setting_of};

use crate::{Setting, value};

// A number with one digit more, up to 255.
fn pushed(n: u8, b: u8) -> Option<u8>
    ensures { result ≡ pushed n b }
{
    n.checked_mul(10)?.checked_add(value(b)?)
}

// The decimal number that the bytes are, up to 255.
fn number(s: &[u8]) -> Option<u8>
    ensures { result ≡ number 0 s.now }
{
    let mut n = 0;
    for b in s {
        n = pushed(n, *b)?;
    }
    Some(n)
}

// The number after a name.
fn number_after(s: &[u8], name: &[u8]) -> Option<u8>
    ensures { result ≡ number_after s.now name.now }
{
    match s.strip_prefix(name)? {
        [] => None,
        digits => number(digits),
    }
}

// What an argument with a number says.
fn numbered(s: &[u8]) -> Option<Setting>
    ensures { result ≡ numbered s.now }
{
    let stop = number_after(s, b"stop=").map(Setting::Stop);
    stop.or(number_after(s, b"place=").map(Setting::Place))
}

// What an argument says, if it is one.
// A `match` over these eight was tried: its default arm, with a case for each byte that may differ, wasn't proved.
pub fn setting(s: &[u8]) -> Option<Setting>
    ensures { result ≡ setting_of s.now }
{
    if s == b"case=letters".as_slice() {
        return Some(Setting::Letters);
    }
    if s == b"case=figures".as_slice() {
        return Some(Setting::Figures);
    }
    if s == b"case=unknown".as_slice() {
        return Some(Setting::CaseUnknown);
    }
    if s == b"place=unknown".as_slice() {
        return Some(Setting::PlaceUnknown);
    }
    if s == b"space=unshifts".as_slice() {
        return Some(Setting::SpaceUnshifts);
    }
    if s == b"space=keeps".as_slice() {
        return Some(Setting::SpaceKeeps);
    }
    if s == b"return=unshifts".as_slice() {
        return Some(Setting::ReturnUnshifts);
    }
    if s == b"return=keeps".as_slice() {
        return Some(Setting::ReturnKeeps);
    }
    numbered(s)
}
