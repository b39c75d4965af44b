// The command reader: one host byte in; nothing, text or a finished command out.
#![tactic(auto)]

ghost use Rattle.std.specs.Prelude.{◌≡◌};
ghost use Rattle.command.specs.Read.{afresh, at, ends, idle, inside, over, ByteRead, released, sound_stage, swallowed};
ghost use Rattle.command.specs.Names.{Nothing};
ghost use Rattle.command.specs.Reads.{running};

mod field;
mod letters;

use field::Field;

// A command's type: TW, TR or any other two letters.
#[derive(Clone, Copy, PartialEq, Eq)]
pub enum Verb {
    Write,
    Read,
    Other,
}

// What stands in the field that is being read: nothing yet, digits, or X.
#[derive(Clone, Copy, PartialEq, Eq)]
pub enum Form {
    Empty,
    Digits,
    Ex,
}

// How far the reader is. Swallow: nothing is held, and a CR that ended a command came just before. Held: a `/` is held. Begun:
// `/.` came. Lettered: one letter, whether it is small and whether it is T. Typed: both letters. Fields: the type, what stands in
// the field being read, and which one that is, from 0; 11 stands for too many. Discard: the rest is being discarded.
// 11 stays a number: so C saves it (include/linebox.h, byte 26 of a state), and `is_sound` tests it in a state that C lends.
#[derive(Clone, Copy, PartialEq, Eq)]
pub enum Stage {
    Text,
    Swallow,
    Held,
    Begun,
    Lettered(bool, bool),
    Typed(Verb),
    Fields(Verb, Form, u8),
    Discard,
}

// The reader: how far it is, and the fields. Places that no field uses hold 0.
#[derive(Clone, Copy)]
pub struct Reader {
    pub stage: Stage,
    pub values: [u8; 11],
}

// What a byte makes: nothing, one text byte, two (the `/` that was held and the byte), or a finished command, with its type and
// how many fields it has, 12 for too many. The fields stand in the reader as it was before the byte.
// Four outcomes, by what the caller does with each; no Option or Result of them would be plainer.
// 12 stays a number: `settings::Setup::run` (docs/PROMISES.md) takes any count as one, and its clause `commanded` speaks of it.
#[derive(Clone, Copy, PartialEq, Eq)]
pub enum Out {
    Nothing,
    One(u8),
    Two(u8),
    Finished(Verb, u8),
}

// The reader after a byte, and what the byte made.
#[derive(Clone, Copy)]
pub struct Step {
    pub reader: Reader,
    pub out: Out,
}

// A run of bytes that made nothing: the reader after them, how many they are, and what the next byte does; where none is left, it
// does nothing.
// `next` is no Option: `linebox` sees by the bytes that are left whether there is one, and would test the same twice.
#[derive(Clone, Copy)]
pub struct Running {
    pub reader: Reader,
    pub next: Step,
    pub taken: usize,
}

impl Step {
    // The reader at a stage in which no field is read.
    fn at(stage: Stage, out: Out) -> Step
        ensures { result ≡ at stage out }
    {
        let values = [0; 11];
        let reader = Reader { stage, values };
        Step { reader, out }
    }

    // The same after a byte that made nothing.
    fn to(stage: Stage) -> Step
        ensures { result ≡ at stage Nothing }
    {
        Step::at(stage, Out::Nothing)
    }
}

// A byte with nothing held.
fn afresh(b: u8) -> Step
    ensures { result ≡ afresh b }
{
    match b {
        b'/' => Step::to(Stage::Held),
        _ => Step::at(Stage::Text, Out::One(b)),
    }
}

// A byte with nothing held, after a CR that ended a command.
fn swallowed(b: u8) -> Step
    ensures { result ≡ swallowed b }
{
    match b {
        b'\n' => Step::to(Stage::Text),
        _ => afresh(b),
    }
}

// A byte with a `/` held.
fn released(b: u8) -> Step
    ensures { result ≡ released b }
{
    match b {
        b'.' => Step::to(Stage::Begun),
        b'/' => Step::at(Stage::Held, Out::One(b'/')),
        _ => Step::at(Stage::Text, Out::Two(b)),
    }
}

// A byte in a command: what it makes if it ends the command, and where it leads if it does not.
fn inside(b: u8, finished: Out, other: Step) -> Step
    ensures { result ≡ inside b finished other }
{
    match b {
        b'\r' => Step::at(Stage::Swallow, finished),
        b'\n' => Step::at(Stage::Text, finished),
        b'/' => Step::to(Stage::Held),
        _ => other,
    }
}

impl Reader {
    // A reader with nothing held.
    pub fn idle() -> Self
        ensures { result ≡ idle }
    {
        let values = [0; 11];
        let stage = Stage::Text;
        Self { stage, values }
    }

    // One byte.
    pub fn read(self, b: u8) -> Step
        ensures { ByteRead self b result }
    {
        match self.stage {
            Stage::Text => afresh(b),
            Stage::Swallow => swallowed(b),
            Stage::Held => released(b),
            Stage::Begun => inside(b, Out::Nothing, letters::first(b)),
            Stage::Lettered(small, t) => inside(b, Out::Nothing, letters::second(small, t, b)),
            Stage::Typed(v) => inside(b, Out::Nothing, field::typed(v, b)),
            Stage::Fields(verb, form, last) => {
                let values = self.values;
                let field = Field {
                    verb,
                    form,
                    last,
                    values,
                };
                inside(b, field.finish(), field.next(b))
            }
            Stage::Discard => inside(b, Out::Nothing, Step::to(Stage::Discard)),
        }
    }

    // The bytes up to the first that makes something.
    pub fn run(self, bytes: &[u8]) -> Running
        ensures { result ≡ running self bytes.now }
    {
        let mut reader = self;
        for (taken, b) in bytes.iter().enumerate() {
            let next = reader.read(*b);
            if next.out != Out::Nothing {
                return Running {
                    reader,
                    next,
                    taken,
                };
            }
            reader = next.reader;
        }
        Running {
            reader,
            next: Step {
                reader,
                out: Out::Nothing,
            },
            taken: bytes.len(),
        }
    }

    // Whether the reader is no further than twelve fields.
    pub fn is_sound(self) -> bool
        ensures { result ≡ sound_stage self.stage }
    {
        match self.stage {
            Stage::Fields(_, _, last) => last <= 11,
            _ => true,
        }
    }
}
