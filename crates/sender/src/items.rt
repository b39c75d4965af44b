// Items: the ending that is due, the code with its shifts, and what option 72 drops, at the front of a buffer that has room for them.
ghost use Rattle.std.specs.Prelude.{◌≡◌, ◌&&◌, [], ◌∷◌, ◌≤◌, length};
ghost use Rattle.code.specs.Kinds.{kind_of};
ghost use Rattle.settings.specs.Options.{filter};
ghost use Rattle.sender.specs.Ending.{due, ending};
ghost use Rattle.sender.specs.Item.{character, last_of, repeats, items};
ghost use Rattle.sender.specs.Run.{Notes, PutsItems};

use crate::{Noted, Record, Sender, Wanted};
use code::{Case, Kind};
use settings::Settings;

// Whether an ending is due at this column.
fn is_due(o: Settings, col: Option<u8>) -> bool
    ensures { result ≡ due o col }
{
    col.is_some_and(|n| o.endings() && o.limit() <= n)
}

impl Record {
    // The ending, where it goes before a code that moves the carriage or not.
    fn end_before(self, o: Settings, moves: bool, out: &mut [u8]) -> Noted<Record>
        requires { length (ending o self (moves && due o self.column)) ≤ length out.old }
        ensures { Notes o self (ending o self (moves && due o self.column)) out.old out.new result }
    {
        if moves && is_due(o, self.column) {
            return self.put_ending(o, o.ending_word(), out);
        }
        Noted {
            held: self,
            count: 0,
        }
    }

    // A character asked for, of this kind: the ending that is due, then the code with its shifts.
    fn put_character(self, o: Settings, w: Wanted, k: Kind, out: &mut [u8]) -> Noted<Record>
        requires { (k ≡ kind_of w.code) × (length (character o self w) ≤ length out.old) }
        ensures { Notes o self (character o self w) out.old out.new result }
    {
        let ended = self.end_before(o, code::moves(w.case, k), out);
        let x = ended.held.put_code(o, w, k, &mut out[ended.count..]);
        Noted {
            held: x.held,
            count: ended.count + x.count,
        }
    }
}

// The item that a code of this kind is, as option 72 asks of it.
fn last_of(k: Kind) -> Option<Case>
    ensures { result ≡ last_of k }
{
    match k {
        Kind::Shift(to) => Some(to),
        Kind::Still | Kind::Space | Kind::Return | Kind::Char(_) => None,
    }
}

// Whether an item is a shift, and the one before it the same shift.
fn repeats(this: Option<Case>, was: Option<Case>) -> bool
    ensures { result ≡ repeats this was }
{
    this.is_some() && this == was
}

// Whether option 72 drops an item.
fn is_dropped(o: Settings, this: Option<Case>, was: Option<Case>) -> bool
    ensures { result ≡ (repeats this was && filter o) }
{
    repeats(this, was) && o.filter()
}

impl Sender {
    // One item.
    pub(crate) fn put_item(self, o: Settings, w: Wanted, out: &mut [u8]) -> Noted<Sender>
        requires { length (items o self (w ∷ [])) ≤ length out.old }
        ensures { PutsItems o self (w ∷ []) out.old out.new result }
    {
        let k = code::kind_of(w.code);
        let last = last_of(k);
        if is_dropped(o, last, self.last) {
            return Noted {
                held: Sender { last, ..self },
                count: 0,
            };
        }
        let x = self.held.put_character(o, w, k, out);
        Noted {
            held: Sender { held: x.held, last },
            count: x.count,
        }
    }
}
