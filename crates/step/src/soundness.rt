// A fresh box, and which states are sound.
ghost use Rattle.std.specs.Prelude.{◌≡◌};
ghost use Rattle.step.specs.State.{fresh_box, sound};

use crate::State;
use crate::states::fresh_sender;
use code::Case;
use command::Reader;
use settings::Connection;

// The box as it is switched on: factory settings, mode 11, nothing held, the motor off.
pub fn fresh() -> State
    ensures { result ≡ fresh_box }
{
    State {
        settings: settings::factory(),
        connection: Connection {
            mode: 11,
            port: 0,
            speed: 0,
        },
        sender: fresh_sender(),
        reading: Case::Letters,
        incoming: Case::Letters,
        reader: Reader::idle(),
        calling: settings::factory_calling(),
        motor: motor::resting(),
    }
}

// Whether a state is sound.
pub fn is_sound(s: State) -> bool
    ensures { result ≡ sound s }
{
    s.setup().is_sound() & (s.reader.is_sound() & motor::is_sound(s.motor))
}
