// What the calls of the traced lines and commands start with: a box, the room of the buffers, and the count taken so far.
ghost use Rattle.std.specs.Prelude.{◌≡◌};
ghost use Rattle.entries.specs.Traces.{ready, judged, prepared, form_taken, form_first, form_second, lending, limited};

use crate::text::{Form, after_bar, before_bar, decode};
use settings::Setup;
use step::{State, Stream};

// What the next call starts with: the box, the room of the two buffers that it lends, and the count taken so far.
#[derive(Clone, Copy)]
pub struct Start {
    pub state: State,
    pub first: u8,
    pub second: u8,
    pub from: u8,
}

// Whether a line is as expected, if it is a vector, and what the next one starts with.
#[derive(Clone, Copy)]
pub struct Ran {
    pub same: Option<bool>,
    pub next: Start,
}

// A box with ample room.
pub fn ready(state: State) -> Start
    ensures { result ≡ ready state }
{
    Start {
        state,
        first: 255,
        second: 255,
        from: 0,
    }
}

// The box after a vector.
pub fn judged(same: bool, state: State) -> Ran
    ensures { result ≡ judged same state }
{
    Ran {
        same: Some(same),
        next: ready(state),
    }
}

// A line that is no vector, and what the next one starts with.
pub fn prepared(b: Start) -> Ran
    ensures { result ≡ prepared b }
{
    Ran {
        same: None,
        next: b,
    }
}

// Three functions and no table: each has a name and a definition of its own (`form_taken`, `form_first`, `form_second`).
impl Form {
    // How the text of a vector has what a stream takes.
    pub fn taken(t: Stream) -> Form
        ensures { result ≡ form_taken t }
    {
        match t {
            Stream::Host => Form::Escaped,
            Stream::Line | Stream::Tu => Form::Decimal,
        }
    }

    // How it has what the call puts into the first buffer.
    pub fn first(t: Stream) -> Form
        ensures { result ≡ form_first t }
    {
        match t {
            Stream::Line => Form::Escaped,
            Stream::Host | Stream::Tu => Form::Decimal,
        }
    }

    // How it has what the call puts into the second buffer.
    pub fn second(t: Stream) -> Form
        ensures { result ≡ form_second t }
    {
        match t {
            Stream::Line => Form::Decimal,
            Stream::Host | Stream::Tu => Form::Escaped,
        }
    }
}

impl Start {
    // `R|rooms and count|`: what the next call lends and starts from.
    pub fn lending(self, s: &[u8]) -> Start
        ensures { result ≡ lending self s.now }
    {
        let mut out = [0u8; 3];
        decode(Form::Decimal, before_bar(after_bar(s)), &mut out);
        let [first, second, from] = out;
        Start {
            first,
            second,
            from,
            ..self
        }
    }

    // `Z|number|`: the box with that number in option 50, which has place 1, sound or not.
    pub fn limited(self, s: &[u8]) -> Start
        ensures { result ≡ limited self s.now }
    {
        let mut out = [0u8; 1];
        decode(Form::Decimal, before_bar(after_bar(s)), &mut out);
        let setup = Setup {
            settings: self.state.settings.with_value(1, out[0]),
            ..self.state.setup()
        };
        ready(self.state.with_stored(setup.keep()))
    }
}
