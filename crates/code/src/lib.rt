// The five-level code: two rows of thirty-two characters, read by case and then by code, and the kinds of codes that they
// make.
#![tactic(auto)]

ghost use Rattle.std.specs.Prelude.{◌≡◌, ◌<◌, ◌++◌};
ghost use Rattle.code.specs.Rows.{letters, figures, row_at};
ghost use Rattle.code.specs.Kinds.{kind_of, shift, strikes, moves};

// The case that a printer is in.
#[derive(Clone, Copy, PartialEq, Eq)]
pub enum Case {
    Letters,
    Figures,
}

// What a code does, whatever prints. Still: BLANK and LF. Char: a code that depends on case; true where its figure is BELL.
#[derive(Clone, Copy, PartialEq, Eq)]
pub enum Kind {
    Still,
    Space,
    Return,
    Shift(Case),
    Char(bool),
}

// What a host byte is on the line: nothing, a code that does not depend on case, or a code with the case it wants.
// Three outcomes, each with a mark of its own in the paper; an Option within an Option would say them no plainer.
#[derive(Clone, Copy, PartialEq, Eq)]
pub enum Conversion {
    Nothing,
    Free(u8),
    Cased(Case, u8),
}

// Letters, then figures. FIGS and LTRS stand as SO and SI.
const ROWS: [[u8; 32]; 2] = [
    [
        0, b'E', 10, b'A', b' ', b'S', b'I', b'U', 13, b'D', b'R', b'J', b'N', b'F', b'C', b'K',
        b'T', b'Z', b'L', b'W', b'H', b'Y', b'P', b'Q', b'O', b'B', b'G', 14, b'M', b'X', b'V', 15,
    ],
    [
        0, b'3', 10, b'-', b' ', 7, b'8', b'7', 13, b'$', b'4', b'\'', b',', b'!', b':', b'(',
        b'5', b'"', b')', b'2', b'#', b'6', b'0', b'1', b'9', b'?', b'&', 14, b'.', b'/', b';', 15,
    ],
];

// The character of a code in a case; over 31 there is none, and it reads as BLANK.
pub fn row_at(case: Case, c: u8) -> u8
    ensures { result ≡ row_at case c }
{
    let row = match case {
        Case::Letters => &ROWS[0],
        Case::Figures => &ROWS[1],
    };
    row.get(usize::from(c)).copied().unwrap_or(0)
}

// The two rows one after the other, letters first, for a caller that lends them.
pub fn rows() -> [u8; 64]
    ensures { result ≡ letters ++ figures }
{
    ROWS.as_flattened().try_into().unwrap()
}

// The kind of a code; over 31 it is as BLANK. 4 is space, 8 is CR, 27 is FIGS, 31 is LTRS, 0 is BLANK and 2 is LF; 5 is S and
// BELL.
pub fn kind_of(c: u8) -> Kind
    ensures { result ≡ kind_of c }
{
    match c {
        4 => Kind::Space,
        8 => Kind::Return,
        27 => Kind::Shift(Case::Figures),
        31 => Kind::Shift(Case::Letters),
        0 | 2 | 32.. => Kind::Still,
        _ => Kind::Char(c == 5),
    }
}

// The code that puts a printer into a case. Two cases and two codes: a `match` says that plainest.
pub fn shift_to(case: Case) -> u8
    ensures { result ≡ shift case }
{
    match case {
        Case::Letters => 31,
        Case::Figures => 27,
    }
}

// Whether a code that depends on case is struck, and so moves the carriage: all are but BELL.
pub fn strikes(bell: bool, case: Case) -> bool
    ensures { result ≡ strikes bell case }
{
    !bell || case == Case::Letters
}

// Whether a code of this kind lands, in this case, and moves the carriage one place.
pub fn moves(case: Case, k: Kind) -> bool
    ensures { result ≡ moves case k }
{
    match k {
        Kind::Space => true,
        Kind::Char(bell) => strikes(bell, case),
        Kind::Still | Kind::Return | Kind::Shift(_) => false,
    }
}
