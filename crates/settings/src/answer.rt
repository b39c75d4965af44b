// The numbers of an answer.
ghost use Rattle.std.specs.Prelude.{◌≡◌};
ghost use Rattle.settings.specs.Command.{answering, numbers_at, reading, outcome};

use crate::numbers::Numbers;
use crate::store::at;
use crate::table::row;
use crate::{Home, Outcome, Row, Stored};

impl Stored {
    // The numbers of a row: the id, how many values it has, and the values.
    fn numbers_at(self, r: Row) -> Numbers
        ensures { result ≡ numbers_at self.settings self.calling self.connection r }
    {
        let id = r.number;
        match r.home {
            Home::Version => Numbers::of(id, [0, 0, 1, 0]),
            Home::Linked(_) => Numbers::of(id, [self.connection.port, self.connection.speed]),
            Home::Value(place, _, _) => Numbers::of(
                id,
                [at(self.settings.values, usize::from(place), 0)],
            ),
            Home::String => Numbers::of(id, word::unpack(self.settings.string)),
            Home::Power => Numbers::of(id, [self.calling.power]),
            Home::Signal(place) => Numbers::of(
                id,
                word::unpack(at(self.calling.strings, usize::from(place), 0)),
            ),
            Home::Unlinked | Home::Factory | Home::Nowhere => Numbers::of(id, []),
        }
    }

    // The row that answers: the connection answers under its mode's own id.
    fn answering(self, r: Row) -> Row
        ensures { result ≡ answering self.connection r }
    {
        if r.home.is_connection() {
            row(self.connection.mode)
        } else {
            r
        }
    }

    // What is stored under an id, read out.
    pub(crate) fn read_out(self, r: Row) -> Outcome
        ensures { result ≡ outcome self (reading self r) }
    {
        Outcome {
            stored: self,
            numbers: self.numbers_at(self.answering(r)),
        }
    }
}
