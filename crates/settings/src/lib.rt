// The settings, how a station is called, and the connection: what is sound, and what a finished command reads, writes and answers.
#![tactic(auto)]

ghost use Rattle.std.specs.Prelude.{◌≡◌, ◌&&◌};
ghost use Rattle.settings.specs.Table.{factory, factory_calling, sound_settings, sound_calling, sound_connection};
ghost use Rattle.settings.specs.Command.{refused, succeeded, commanded};

use command::Verb;
use faults::Command;
use numbers::Numbers;
use table::row;

mod answer;
mod faults;
pub mod numbers;
mod options;
mod sound;
mod store;
mod string;
mod table;

// The settings: string 90, the line ending, as a word, and the value of each option in the table's order.
#[derive(Clone, Copy)]
pub struct Settings {
    pub string: u64,
    pub values: [u8; 7],
}

// How a station is called: strings 91 to 95 as words, in that order, and the motor power mode, id 53.
#[derive(Clone, Copy)]
pub struct Calling {
    pub strings: [u64; 5],
    // It stays a number: a state may hold any byte, and one that is no mode is handed back as it came (answer 3; `calling_of` of spelling).
    pub power: u8,
}

// The connection: its mode, which is the id that writes it, and its port and speed, 0 where the mode has none.
#[derive(Clone, Copy)]
pub struct Connection {
    // It stays a number: a state may hold any byte, and one that is no mode is handed back as it came (answer 3; `state_of` of spelling).
    pub mode: u8,
    pub port: u8,
    pub speed: u8,
}

// All that a command reads and writes: the settings, how a station is called, and the connection.
#[derive(Clone, Copy)]
pub struct Setup {
    pub settings: Settings,
    pub calling: Calling,
    pub connection: Connection,
}

// Where the values of an id are, and their range: the version, a connection with a port up to the last and a speed or with neither, an
// option's place with its least and its greatest value, string 90, the motor power mode, one of strings 91 to 95 by its place, all to
// factory, or nowhere.
// `Nowhere` stays a case and no `None`: `row` answers for every id, and laws speak of the home that it gives (`defined`).
#[derive(Clone, Copy)]
pub enum Home {
    Version,
    Linked(u8),
    Unlinked,
    Value(u8, u8, u8),
    String,
    Power,
    Signal(u8),
    Factory,
    Nowhere,
}

// A row of the table: the id's number, where its values are, and whether it can be written and read.
#[derive(Clone, Copy)]
pub struct Row {
    pub number: u8,
    pub home: Home,
    pub written: bool,
    pub read: bool,
}

// What is wrong with a command: its type, its id, its number of parameters, its checksum, or a value.
#[derive(Clone, Copy, Debug, PartialEq, Eq)]
pub enum Fault {
    Type,
    Id,
    Parameters,
    Checksum,
    Range,
}

// The settings and the connection after a command, whether a connection was written, how a station is called, and whether the motor goes
// off and forgets what was heard. It has two flags and no kinds, since `connected_by` and `forgets_by` speak of each by itself.
#[derive(Clone, Copy)]
pub struct Stored {
    pub settings: Settings,
    pub connection: Connection,
    pub connected: bool,
    pub calling: Calling,
    pub forgets: bool,
}

// What a command does, and the numbers of its answer.
#[derive(Clone, Copy)]
pub struct Outcome {
    pub stored: Stored,
    pub numbers: Numbers,
}

// The factory settings; the number is the word of 8, 8, 2, 31, 31 and three zeros.
pub fn factory() -> Settings
    ensures { result ≡ factory }
{
    Settings {
        string: 33523976,
        values: [0, 72, 0, 0, 0, 0, 0],
    }
}

// How a station is called from the factory; the numbers are the words of 4, 4, 4, 4, 4, 8, 8, 2 (strings 91 and 93), of 2, 12, 12, 12, 12
// (92), of 16, 16, 21, 14, 24, 12, 12 (94) and of 17, 14, 17, 14 (95).
pub fn factory_calling() -> Calling
    ensures { result ≡ factory_calling }
{
    Calling {
        strings: [77582176388, 12988802, 77582176388, 13313201680, 476625],
        power: 0,
    }
}

impl Setup {
    // Whether the settings, how a station is called, and the connection are sound.
    pub fn is_sound(self) -> bool
        ensures { result ≡ (sound_settings self.settings && (sound_connection self.connection && sound_calling self.calling)) }
    {
        self.settings.is_sound() & (self.connection.is_sound() & self.calling.is_sound())
    }

    // An error: nothing changes, and its number is answered.
    fn refuse(self, id: u8, fault: Fault) -> Outcome
        ensures { result ≡ refused self.settings self.calling self.connection id fault }
    {
        Outcome {
            stored: self.keep(),
            numbers: Numbers::of(255, [id, u8::from(fault)]),
        }
    }

    // A command without error.
    fn succeed(self, command: Command) -> Outcome
        ensures { result ≡ succeeded self.settings self.calling self.connection command.verb command.row command.fields }
    {
        self.obey(command).read_out(command.row)
    }

    // What a finished command of `count` fields does and answers.
    pub fn run(self, verb: Verb, count: u8, fields: [u8; 11]) -> Outcome
        ensures { result ≡ commanded self.settings self.calling self.connection verb count fields }
    {
        let id = fields[0];
        let command = Command {
            verb,
            row: row(id),
            count,
            fields,
        };
        match self.check(command) {
            Ok(()) => self.succeed(command),
            Err(fault) => self.refuse(id, fault),
        }
    }
}
