// A byte's codes to the line, made in a buffer of their own, and what the host is told of the motor; both are put into the free parts of
// the lent buffers where all of them fit.
ghost use Rattle.std.specs.Prelude.{◌≡◌, [], ◌≤◌, length};
ghost use Rattle.step.specs.Names.{Host as Names-as-Host, Tu as Names-as-Tu};
ghost use Rattle.step.specs.Route.{route};
ghost use Rattle.step.specs.Hear.{asked_by, tells};
ghost use Rattle.step.specs.Step.{sends, text, tu_step};
ghost use Rattle.step.specs.Byte.{Offers};

use crate::hears::hear;
use crate::routes::prints;
use crate::{Heard, NoRoom, State, Stream, Taken};
use sender::{Asks, Until};

// The codes at the front of the line buffer, and what the host is told at the front of its own, if all of both fit.
fn put_both(
    s: State,
    codes: &[u8],
    h: Heard,
    line: &mut [u8],
    host: &mut [u8],
) -> Result<Taken, NoRoom>
    ensures { Offers Names-as-Host (record { state = s; line = codes.now; host = tells h; tu = [] }) line.old host.old line.new host.new result }
{
    if line.len() < codes.len() || host.len() < h.size() {
        return Err(NoRoom { state: s });
    }
    Ok(Taken {
        state: s,
        first: message::put(codes, line, 0),
        second: h.put(host),
    })
}

// Bytes to the printer as they are asked for, two at most. All codes are made before one is put. The bound stays a clause: a type with it
// would be made for each TU code too, and `Offers` names each buffer.
fn put_asked(
    s: State,
    asks: Asks,
    bytes: &[u8],
    line: &mut [u8],
    host: &mut [u8],
) -> Result<Taken, NoRoom>
    requires { length bytes.now ≤ 2 }
    ensures { Offers Names-as-Host (sends s (asked_by s.settings asks bytes.now)) line.old host.old line.new host.new result }
{
    let mut codes = [0u8; 36];
    let x = sender::runs::send(s.settings, s.sender, asks, Until::Never, bytes, &mut codes);
    let h = hear(s, asks, bytes);
    let next = State {
        sender: x.sender,
        motor: h.motor,
        ..s
    };
    put_both(next, &codes[..x.count], h, line, host)
}

// Text to the printer, a byte and before it the `/` where that was held, where that is its route; otherwise it is dropped.
pub fn put_text(s: State, bytes: &[u8], line: &mut [u8], host: &mut [u8]) -> Result<Taken, NoRoom>
    requires { length bytes.now ≤ 2 }
    ensures { Offers Names-as-Host (sends s (text s.settings (route s.connection Names-as-Host) bytes.now)) line.old host.old line.new host.new result }
{
    if prints(s.connection, Stream::Host) {
        put_asked(s, Asks::Text, bytes, line, host)
    } else {
        Ok(Taken::nothing(s))
    }
}

// One TU code, with the parts of the line and host buffers that are free: to the printer, where that is its route; otherwise it is
// dropped.
pub fn put_tu(s: State, c: u8, line: &mut [u8], host: &mut [u8]) -> Result<Taken, NoRoom>
    ensures { Offers Names-as-Tu (tu_step s c) line.old host.old line.new host.new result }
{
    if prints(s.connection, Stream::Tu) {
        let asks = Asks::Codes(s.incoming);
        let next = State {
            incoming: asks.next(s.settings, c).case(),
            ..s
        };
        put_asked(next, asks, &[c], line, host)
    } else {
        Ok(Taken::nothing(s))
    }
}
