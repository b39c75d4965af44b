// What 128 bytes spell: each field from its offset, and the test that they are that state's spelling to the last byte.
ghost use Rattle.std.specs.Prelude.{◌≡◌};
ghost use Rattle.laws.specs.Same.{same};
ghost use Rattle.spelling.specs.Spelling.{calling_of, settings_of, spelt, state_of};

use crate::save::save;
use crate::spelled::get;
use command::Reader;
use motor::Motor;
use sender::{Record, Sender};
use settings::{Calling, Settings};
use step::State;

// The settings: each option from its offset, and string 90's word from offset 6 on.
fn settings_of(b: &[u8; 128]) -> Settings
    ensures { result ≡ settings_of b.now }
{
    Settings {
        values: [b[0], b[1], b[2], b[3], b[4], b[5], b[41]],
        string: get(b, 6),
    }
}

// How a station is called: strings 91 to 95 from offset 64 on, the motor power mode at 39.
fn calling_of(b: &[u8; 128]) -> Calling
    ensures { result ≡ calling_of b.now }
{
    Calling {
        strings: [get(b, 64), get(b, 72), get(b, 80), get(b, 88), get(b, 96)],
        power: b[39],
    }
}

// The state that the bytes read as; whether they spell it is told by `is_spelling`.
#[tactic(auto, unfolding(crate::specs::Spelling::state_of))]
pub fn state_of(b: &[u8; 128]) -> State
    ensures { result ≡ state_of b.now }
{
    State {
        settings: settings_of(b),
        connection: get(b, 14),
        sender: Sender {
            held: Record {
                case: get(b, 17),
                column: get(b, 18),
            },
            last: get(b, 20),
        },
        reading: get(b, 21),
        incoming: get(b, 22),
        reader: Reader {
            stage: get(b, 23),
            values: get(b, 27),
        },
        calling: calling_of(b),
        motor: Motor {
            heard: get(b, 56),
            run: get(b, 44),
        },
    }
}

// Whether the bytes are the spelling of a state.
#[tactic(auto, using(crate::proofs::Same::as_same))]
pub fn is_spelling(b: &[u8; 128], s: State) -> bool
    ensures { result ≡ same b.now (spelt s) }
{
    let mut again = [0u8; 128];
    save(s, &mut again);
    *b == again
}
