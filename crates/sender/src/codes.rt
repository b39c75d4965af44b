// One code with its shifts, and an ending of several, at the front of a buffer that has room for them.
ghost use Rattle.std.specs.Prelude.{◌≡◌, cond, [], ◌∷◌, ◌++◌, ◌≤◌, length};
ghost use Rattle.laws.specs.Written.{Filled};
ghost use Rattle.word.specs.Word.{unpacked};
ghost use Rattle.code.specs.Kinds.{kind_of, shifts};
ghost use Rattle.sender.specs.Names.{Letters as Names-as-Letters};
ghost use Rattle.sender.specs.Code.{shift_to, unshift, follow, send_as};
ghost use Rattle.sender.specs.Ending.{on_record, ending_of, until_zero};
ghost use Rattle.sender.specs.Run.{Notes};

use crate::{Noted, Record, Wanted};
use code::{Case, Kind};
use settings::Settings;

// Whether LTRS follows a space or a return, by its option.
fn is_unshifted(on: bool, n: Option<Case>) -> bool
    ensures { unshift on n ≡ cond result (Names-as-Letters ∷ []) [] }
{
    on && n != Some(Case::Letters)
}

// Whether LTRS follows a code of this kind.
fn is_followed(o: Settings, n: Option<Case>, k: Kind) -> bool
    ensures { follow o n k ≡ cond result (Names-as-Letters ∷ []) [] }
{
    match k {
        Kind::Space => is_unshifted(o.onspace(), n),
        Kind::Return => is_unshifted(o.onreturn(), n),
        Kind::Still | Kind::Shift(_) | Kind::Char(_) => false,
    }
}

// A code that depends on case: the shift that it needs, and the code. How many they are.
fn put_led(n: Option<Case>, w: Wanted, out: &mut [u8]) -> usize
    requires { length (shifts (shift_to n w.case) ++ w.code ∷ []) ≤ length out.old }
    ensures { Filled out.old out.new (shifts (shift_to n w.case) ++ w.code ∷ []) result }
{
    if n == Some(w.case) {
        out[0] = w.code;
        return 1;
    }
    out[0] = code::shift_to(w.case);
    out[1] = w.code;
    2
}

// Any other code, and the LTRS that follows. How many they are.
fn put_followed(o: Settings, n: Option<Case>, c: u8, k: Kind, out: &mut [u8]) -> usize
    requires { length (c ∷ shifts (follow o n k)) ≤ length out.old }
    ensures { Filled out.old out.new (c ∷ shifts (follow o n k)) result }
{
    out[0] = c;
    if is_followed(o, n, k) {
        out[1] = code::shift_to(Case::Letters);
        return 2;
    }
    1
}

// The case that a code of an ending is sent in: the one on record, letters while it is unknown.
fn on_record(n: Option<Case>) -> Case
    ensures { result ≡ on_record n }
{
    n.unwrap_or(Case::Letters)
}

impl Record {
    // One code, of this kind, in its wanted case: the shift that it needs, the code, the LTRS that follows.
    pub(crate) fn put_code(self, o: Settings, w: Wanted, k: Kind, out: &mut [u8]) -> Noted<Record>
        requires { (k ≡ kind_of w.code) × (length (send_as o self.case w.case w.code) ≤ length out.old) }
        ensures { Notes o self (send_as o self.case w.case w.code) out.old out.new result }
    {
        let count = if let Kind::Char(_) = k {
            put_led(self.case, w, out)
        } else {
            put_followed(o, self.case, w.code, k, out)
        };
        Noted {
            held: self.after(o, w.case, k),
            count,
        }
    }

    // The codes of a string's word as an ending, up to the first 0.
    // `&mut out[count..]` and no slice that shrinks, as in `send`: the count is handed back in any case.
    pub(crate) fn put_ending(self, o: Settings, string: u64, out: &mut [u8]) -> Noted<Record>
        requires { length (ending_of o self (until_zero (unpacked string))) ≤ length out.old }
        ensures { Notes o self (ending_of o self (until_zero (unpacked string))) out.old out.new result }
    {
        let mut held = self;
        let mut count = 0;
        for c in word::unpack(string) {
            if c == 0 {
                return Noted { held, count };
            }
            let w = Wanted {
                case: on_record(held.case),
                code: c,
            };
            let x = held.put_code(o, w, code::kind_of(c), &mut out[count..]);
            held = x.held;
            count += x.count;
        }
        Noted { held, count }
    }
}
