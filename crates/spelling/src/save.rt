// The spelling of a state: each field at its offset.
ghost use Rattle.std.specs.Prelude.{◌≡◌, set};
ghost use Rattle.spelling.specs.Spelling.{offsets, puts, sets_at, signals_bytes, spelt, string_bytes};

use crate::spelled::put;
use settings::{Calling, Settings};
use step::State;

// The settings: string 90's word from offset 6 on, and each option at its offset.
fn put_settings(bytes: &mut [u8; 128], s: &Settings)
    ensures { bytes.new ≡ sets_at (puts bytes.old 6 (string_bytes s.now)) offsets 0 s.now.values }
{
    put(bytes, 6, s.string);
    laws::copy(&s.values[..6], &mut bytes[..6]);
    bytes[41] = s.values[6];
}

// How a station is called: the motor power mode at 39, strings 91 to 95 from offset 64 on.
fn put_calling(bytes: &mut [u8; 128], k: &Calling)
    ensures { bytes.new ≡ puts (set bytes.old 39 k.now.power) 64 (signals_bytes k.now) }
{
    bytes[39] = k.power;
    for (i, string) in k.strings.iter().enumerate() {
        put(bytes, 64 + 8 * i, *string);
    }
}

// The whole state, over whatever the bytes were. It is compiled into its callers, which then need not lay out the state for it.
#[inline(always)]
pub fn save(s: State, bytes: &mut [u8; 128])
    ensures { bytes.new ≡ spelt s }
{
    *bytes = [0u8; 128];
    put_settings(bytes, &s.settings);
    put(bytes, 14, s.connection);
    put(bytes, 17, s.sender.held.case);
    put(bytes, 18, s.sender.held.column);
    put(bytes, 20, s.sender.last);
    put(bytes, 21, s.reading);
    put(bytes, 22, s.incoming);
    put(bytes, 23, s.reader.stage);
    put(bytes, 27, s.reader.values);
    put_calling(bytes, &s.calling);
    put(bytes, 44, s.motor.run);
    put(bytes, 56, s.motor.heard);
}
