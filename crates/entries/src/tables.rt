// The firmware paper's two tables: `A` with a value, its mark and its code, or `U` with a code and its two characters.
ghost use Rattle.std.specs.Prelude.{◌≡◌};
ghost use Rattle.code.specs.Convert.{mark_of, code_of};
ghost use Rattle.entries.specs.Tables.{hex_at, ascii_holds, ustty_holds, entry};

use crate::text::{byte_at, hex};
use code::{Case, Conversion};

// An entry of a table, and whether it is as the paper has it.
#[derive(Clone, Copy)]
pub enum Entry {
    Ascii(bool),
    Ustty(bool),
}

// The value of the two hexadecimal digits at a place.
fn hex_at(s: &[u8], at: u8) -> u8
    ensures { result ≡ hex_at s.now at }
{
    let i = usize::from(at);
    hex(byte_at(s, i), byte_at(s, i + 1))
}

// The paper's mark of a conversion.
fn mark_of(x: Conversion) -> u8
    ensures { result ≡ mark_of x }
{
    match x {
        Conversion::Nothing => b'-',
        Conversion::Free(_) => b'N',
        Conversion::Cased(Case::Letters, _) => b'L',
        Conversion::Cased(Case::Figures, _) => b'F',
    }
}

// The paper's code of a conversion.
fn code_of(x: Conversion) -> u8
    ensures { result ≡ code_of x }
{
    match x {
        Conversion::Nothing => 0,
        Conversion::Free(c) | Conversion::Cased(_, c) => c,
    }
}

// Whether a line as `A 0x41 L 0x03` is as the conversion has it.
fn ascii_holds(s: &[u8]) -> bool
    ensures { result ≡ ascii_holds s.now }
{
    let x = convert::convert(hex_at(s, 4));
    mark_of(x) == byte_at(s, 7) && code_of(x) == hex_at(s, 11)
}

// Whether a line as `U 0x03 0x41 0x2D` is as the two rows have it.
fn ustty_holds(s: &[u8]) -> bool
    ensures { result ≡ ustty_holds s.now }
{
    let c = hex_at(s, 4);
    code::row_at(Case::Letters, c) == hex_at(s, 9)
        && code::row_at(Case::Figures, c) == hex_at(s, 14)
}

// One line run through the conversions, if it is an entry of a table.
pub fn run_entry(s: &[u8]) -> Option<Entry>
    ensures { result ≡ entry s.now }
{
    match byte_at(s, 0) {
        b'A' => Some(Entry::Ascii(ascii_holds(s))),
        b'U' => Some(Entry::Ustty(ustty_holds(s))),
        _ => None,
    }
}
