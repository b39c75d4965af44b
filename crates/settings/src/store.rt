// What a write stores.
ghost use Rattle.std.specs.Prelude.{◌≡◌, get_or, take, drop, set};
ghost use Rattle.word.specs.Word.{packed};
ghost use Rattle.settings.specs.Options.{stand_in};
ghost use Rattle.settings.specs.Table.{factory, factory_calling};
ghost use Rattle.settings.specs.Command.{kept, joined, recalled, with_value, with_string, with_power, with_signal, link, store, obey};

use crate::faults::Command;
use crate::table::first_eight;
use crate::{Calling, Connection, Home, Settings, Setup, Stored, factory, factory_calling};
use command::Verb;

// What is at a place of an array, or what is handed in for none where there is no such place.
pub(crate) fn at<T: Copy, const N: usize>(xs: [T; N], place: usize, none: T) -> T
    ensures { result ≡ get_or xs place none }
{
    xs.get(place).copied().unwrap_or(none)
}

// An array with what is at a place changed, if there is such a place.
// `if let Some(y) = xs.get_mut(i)` does not prove: what `get_mut` promises says nothing of the array afterwards.
// `Field::holding` of command has these lines too: it is no plainer to change the settings' arrays by a function of the command reader.
fn changed<T: Copy, const N: usize>(mut xs: [T; N], place: u8, x: T) -> [T; N]
    ensures { result ≡ set xs place x }
{
    let i = usize::from(place);
    if i < N {
        xs[i] = x;
    }
    xs
}

impl Settings {
    // The settings with the value at a place changed.
    pub fn with_value(self, place: u8, x: u8) -> Settings
        ensures { result ≡ with_value self place x }
    {
        Settings {
            values: changed(self.values, place, x),
            ..self
        }
    }

    // The settings with the line ending's word changed.
    fn with_string(self, string: u64) -> Settings
        ensures { result ≡ with_string self string }
    {
        Settings { string, ..self }
    }
}

impl Calling {
    // How a station is called, with the motor power mode changed.
    fn with_power(self, power: u8) -> Calling
        ensures { result ≡ with_power self power }
    {
        Calling { power, ..self }
    }

    // How a station is called, with the word of the string at a place changed.
    fn with_signal(self, place: u8, x: u64) -> Calling
        ensures { result ≡ with_signal self place x }
    {
        Calling {
            strings: changed(self.strings, place, x),
            ..self
        }
    }
}

// The word of the first eight parameters.
fn string_of(ps: [u8; 9]) -> u64
    ensures { result ≡ packed (take 8 ps) }
{
    word::pack(first_eight(ps))
}

impl Setup {
    // The connection stays, and what was heard.
    pub fn keep(self) -> Stored
        ensures { result ≡ kept self.settings self.calling self.connection }
    {
        Stored {
            settings: self.settings,
            connection: self.connection,
            connected: false,
            calling: self.calling,
            forgets: false,
        }
    }

    // A setting is written.
    fn set(self, settings: Settings) -> Stored
        ensures { result ≡ kept settings self.calling self.connection }
    {
        Stored {
            settings,
            ..self.keep()
        }
    }

    // How a station is called is written.
    fn recall(self, calling: Calling) -> Stored
        ensures { result ≡ recalled self.settings calling self.connection }
    {
        Stored {
            calling,
            forgets: true,
            ..self.keep()
        }
    }

    // A connection is written.
    fn join(self, mode: u8, port: u8, speed: u8) -> Stored
        ensures { result ≡ joined self.settings self.calling (link mode port speed) }
    {
        Stored {
            connection: Connection { mode, port, speed },
            connected: true,
            forgets: true,
            ..self.keep()
        }
    }

    // All settings, and how a station is called, go to factory.
    fn reset(self) -> Stored
        ensures { result ≡ recalled factory factory_calling self.connection }
    {
        Stored {
            settings: factory(),
            ..self.recall(factory_calling())
        }
    }

    // What a write of an id of this number stores.
    fn store(self, home: Home, number: u8, ps: [u8; 9]) -> Stored
        ensures { result ≡ store self.settings self.calling self.connection home number ps }
    {
        match home {
            Home::Linked(_) => self.join(number, ps[0], ps[1]),
            Home::Unlinked => self.join(number, 0, 0),
            Home::Value(place, _, _) => self.set(self.settings.with_value(place, ps[0])),
            Home::String => self.set(self.settings.with_string(string_of(ps))),
            Home::Power => self.recall(self.calling.with_power(ps[0])),
            Home::Signal(place) => self.recall(self.calling.with_signal(place, string_of(ps))),
            Home::Factory => self.reset(),
            Home::Version | Home::Nowhere => self.keep(),
        }
    }

    // What a command without error stores.
    pub(crate) fn obey(self, command: Command) -> Stored
        ensures { result ≡ obey self.settings self.calling self.connection command.verb command.row (drop 2 command.fields) }
    {
        match command.verb {
            Verb::Write => self.store(command.row.home, command.row.number, command.parameters()),
            Verb::Read | Verb::Other => self.keep(),
        }
    }

    // What option 77, whose place is 6, is once a write is stored: the first parameter where that is its place, 0 where all settings go to
    // factory.
    #[tactic(auto, unfolding(crate::specs::Options::stand_in))]
    pub(crate) fn stored_stand_in(self, command: Command) -> u8
        ensures { result ≡ stand_in (store self.settings self.calling self.connection command.row.home command.row.number (drop 2 command.fields)).settings }
    {
        match command.row.home {
            Home::Value(6, _, _) => command.parameters()[0],
            Home::Factory => 0,
            _ => self.settings.stand_in(),
        }
    }
}
