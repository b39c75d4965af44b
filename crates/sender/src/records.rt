// The record after a code in its wanted case, with the shift before it or the LTRS after it.
ghost use Rattle.std.specs.Prelude.{◌≡◌, cond};
ghost use Rattle.code.specs.Kinds.{strikes};
ghost use Rattle.sender.specs.Record.{next};
ghost use Rattle.sender.specs.After.{after_unshift, after};

use crate::Record;
use code::{Case, Kind};
use settings::Settings;

// The case on record after a space or a return.
fn after_unshift(on: bool, n: Option<Case>) -> Option<Case>
    ensures { result ≡ after_unshift on n }
{
    if on { Some(Case::Letters) } else { n }
}

// The column one place on, staying at 255.
fn next(col: Option<u8>) -> Option<u8>
    ensures { result ≡ next col }
{
    col.map(|n| n.saturating_add(1))
}

// The column after a code that depends on case.
fn after_char(bell: bool, want: Case, col: Option<u8>) -> Option<u8>
    ensures { result ≡ cond (strikes bell want) (next col) col }
{
    if code::strikes(bell, want) {
        next(col)
    } else {
        col
    }
}

impl Record {
    // The record after a code of this kind in its wanted case.
    pub(crate) fn after(self, o: Settings, want: Case, k: Kind) -> Record
        ensures { result ≡ after o self want k }
    {
        match k {
            Kind::Still => self,
            Kind::Space => Record {
                case: after_unshift(o.onspace(), self.case),
                column: next(self.column),
            },
            Kind::Return => Record {
                case: after_unshift(o.onreturn(), self.case),
                column: Some(0),
            },
            Kind::Shift(to) => Record {
                case: Some(to),
                ..self
            },
            Kind::Char(bell) => Record {
                case: Some(want),
                column: after_char(bell, want, self.column),
            },
        }
    }
}
