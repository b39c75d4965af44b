// What a command reads of the state, and the state with what it stored.
ghost use Rattle.std.specs.Prelude.{◌≡◌};
ghost use Rattle.sender.specs.Item.{fresh};
ghost use Rattle.settings.specs.Laws.{Lasts};
ghost use Rattle.step.specs.State.{with_stored};

use crate::State;
use code::Case;
use sender::{Record, Sender};
use settings::{Setup, Stored};

// The sender on connection: the record unknown, no last item.
pub(crate) fn fresh_sender() -> Sender
    ensures { result ≡ fresh }
{
    Sender {
        held: Record {
            case: None,
            column: None,
        },
        last: None,
    }
}

impl State {
    // What a command reads and writes of it.
    pub fn setup(self) -> Setup
        ensures { result ≡ record { settings = self.settings; calling = self.calling; connection = self.connection } }
    {
        Setup {
            settings: self.settings,
            calling: self.calling,
            connection: self.connection,
        }
    }

    // The state with what a command stored. Where the motor does not forget, neither the connection nor how a station is called was
    // written, and all but the settings stays in its place.
    pub fn with_stored(mut self, t: Stored) -> State
        requires { Lasts self.calling self.connection t }
        ensures { result ≡ with_stored self t }
    {
        self.settings = t.settings;
        if !t.forgets {
            return self;
        }
        self.connection = t.connection;
        self.calling = t.calling;
        self.motor = motor::resting();
        if t.connected {
            self.sender = fresh_sender();
            self.reading = Case::Letters;
            self.incoming = Case::Letters;
        }
        self
    }
}
