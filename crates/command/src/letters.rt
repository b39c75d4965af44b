// A command's two letters.
ghost use Rattle.std.specs.Prelude.{◌≡◌};
ghost use Rattle.command.specs.Read.{alike, first, second, verb};

use crate::{Stage, Step, Verb};

// A command's first letter.
pub(crate) fn first(b: u8) -> Step
    ensures { result ≡ first b }
{
    if b.is_ascii_alphabetic() {
        Step::to(Stage::Lettered(b.is_ascii_lowercase(), matches!(b, b'T' | b't')))
    } else {
        Step::to(Stage::Discard)
    }
}

// Whether a byte is a letter in the case of type that the first had.
fn alike(small: bool, b: u8) -> bool
    ensures { result ≡ alike small b }
{
    if small {
        b.is_ascii_lowercase()
    } else {
        b.is_ascii_uppercase()
    }
}

// The type that a second letter makes, after a T or after another.
fn verb_of(t: bool, b: u8) -> Verb
    ensures { result ≡ verb t b }
{
    match b {
        b'W' | b'w' if t => Verb::Write,
        b'R' | b'r' if t => Verb::Read,
        _ => Verb::Other,
    }
}

// A command's second letter.
pub(crate) fn second(small: bool, t: bool, b: u8) -> Step
    ensures { result ≡ second small t b }
{
    if alike(small, b) {
        Step::to(Stage::Typed(verb_of(t, b)))
    } else {
        Step::to(Stage::Discard)
    }
}
