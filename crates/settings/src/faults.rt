// What is wrong with a command: the first error that applies.
ghost use Rattle.std.specs.Prelude.{◌≡◌, ◌%◌, take, drop};
ghost use Rattle.settings.specs.Command.{sum, checked, fitting, ranged, fault_in, fault_of, together, jointly, number_of, obey};

use crate::sound::is_stand_in;
use crate::store::at;
use crate::{Fault, Row, Setup};
use command::Verb;

// A finished command: its type, the row of its id, how many fields it has, and the fields: the id, the number of parameters, the
// parameters and, if one more stands there, a checksum.
#[derive(Clone, Copy)]
pub struct Command {
    pub verb: Verb,
    pub row: Row,
    pub count: u8,
    pub fields: [u8; 11],
}

// Eight bytes, by way of one number. A call of its own: compiled into the command reader's loop, it takes half as many instructions again.
#[inline(never)]
fn by_number(bytes: [u8; 8]) -> [u8; 8]
    ensures { result ≡ bytes }
{
    u64::from_le_bytes(bytes).to_le_bytes()
}

impl Command {
    // The sum of the first n fields, modulo 256.
    fn checksum(self, n: usize) -> u8
        ensures { result ≡ sum (take n self.fields) % 256 }
    {
        self.fields
            .iter()
            .take(n)
            .fold(0, |total: u8, field| total.wrapping_add(*field))
    }

    // Whether there is no checksum after n parameters, or the right one.
    fn is_checked(self, n: u8) -> bool
        ensures { result ≡ checked n self.count self.fields }
    {
        let k = usize::from(n) + 2;
        usize::from(self.count) == k || self.checksum(k) == at(self.fields, k, 0)
    }

    // Whether the number field is n, and the parameters are that many or one more.
    fn is_fitting(self, n: u8) -> bool
        ensures { result ≡ fitting n self.count self.fields }
    {
        let k = usize::from(n);
        let c = usize::from(self.count);
        (self.fields[1] == n) & ((c == k + 2) | (c == k + 3))
    }

    // The parameters, and what follows them. Eight go by one number: what is looked at place by place is kept in a register for each, and
    // the command reader, compiled into the same loop, would carry eleven.
    pub fn parameters(self) -> [u8; 9]
        ensures { result ≡ drop 2 self.fields }
    {
        let [_, _, a, b, c, d, e, f, g, h, last] = self.fields;
        let [a, b, c, d, e, f, g, h] = by_number([a, b, c, d, e, f, g, h]);
        [a, b, c, d, e, f, g, h, last]
    }

    // Whether the values are in their range.
    fn is_ranged(self) -> bool
        ensures { result ≡ ranged self.verb self.row self.fields }
    {
        match self.verb {
            Verb::Write => self.row.home.in_range(self.parameters()),
            Verb::Read | Verb::Other => true,
        }
    }

    // What is wrong with a command whose id takes so many parameters.
    fn fault_in(self, taken: Option<u8>) -> Result<(), Fault>
        ensures { result ≡ fault_in taken self.verb self.row self.count self.fields }
    {
        let n = taken.ok_or(Fault::Id)?;
        if !self.is_fitting(n) {
            return Err(Fault::Parameters);
        }
        if !self.is_checked(n) {
            return Err(Fault::Checksum);
        }
        if !self.is_ranged() {
            return Err(Fault::Range);
        }
        Ok(())
    }

    // What is wrong with a command.
    fn fault(self) -> Result<(), Fault>
        ensures { result ≡ fault_of self.verb self.row self.count self.fields }
    {
        if let Verb::Other = self.verb {
            return Err(Fault::Type);
        }
        self.fault_in(self.row.taken_by(self.verb))
    }
}

impl Setup {
    // Whether what a command would store goes together.
    fn goes_together(self, command: Command) -> bool
        ensures { result ≡ together command.verb (obey self.settings self.calling self.connection command.verb command.row (drop 2 command.fields)).settings }
    {
        match command.verb {
            Verb::Write => is_stand_in(self.stored_stand_in(command)),
            Verb::Read | Verb::Other => true,
        }
    }

    // What is wrong with a command, where a value also has to go together with the settings.
    pub(crate) fn check(self, command: Command) -> Result<(), Fault>
        ensures { result ≡ jointly (fault_of command.verb command.row command.count command.fields) (together command.verb (obey self.settings self.calling self.connection command.verb command.row (drop 2 command.fields)).settings) }
    {
        command.fault()?;
        if self.goes_together(command) {
            Ok(())
        } else {
            Err(Fault::Range)
        }
    }
}

// The number of an error.
impl From<Fault> for u8 {
    ghost from_gives = { λ f n. n ≡ number_of f };

    fn from(f: Fault) -> u8 {
        match f {
            Fault::Type => 1,
            Fault::Id => 2,
            Fault::Parameters => 3,
            Fault::Checksum => 4,
            Fault::Range => 5,
        }
    }
}
