// Host text to line codes, by a search through the two rows.
#![tactic(auto)]

ghost use Rattle.std.specs.Prelude.{◌≡◌};
ghost use Rattle.code.specs.Convert.{found, conversion};
ghost use Rattle.convert.specs.Entry.{Converts, Tabled};

use code::{Case, Conversion, Kind};

// A code found in the row of a case.
fn found(case: Case, c: u8) -> Conversion
    ensures { result ≡ found case c }
{
    if matches!(code::kind_of(c), Kind::Char(_)) {
        Conversion::Cased(case, c)
    } else {
        Conversion::Free(c)
    }
}

// The rows, letters and then figures, for a caller that lends them to many look-ups.
pub fn table() -> [u8; 64]
    ensures { Tabled result }
{
    code::rows()
}

// What a host byte is on the line: the place of its capital in the rows lent tells its case and its code.
pub fn look_up(table: &[u8], b: u8) -> Conversion
    requires { Tabled table.now }
    ensures { result ≡ conversion b }
{
    let capital = b.to_ascii_uppercase();
    // A `for`, which the compiler makes a jump; `position` stays a search there, five times as many instructions.
    for (place, x) in table.iter().enumerate() {
        if *x == capital {
            return if place < 32 {
                found(Case::Letters, place as u8)
            } else {
                found(Case::Figures, (place - 32) as u8)
            };
        }
    }
    Conversion::Nothing
}

// What a host byte is on the line.
pub fn convert(b: u8) -> Conversion
    ensures { Converts b result }
{
    let t = table();
    look_up(&t, b)
}
