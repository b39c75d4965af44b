// Runs of plain bytes, written straight into the free part of the line buffer: text or TU codes whose route is to the printer, while
// nothing is heard. Text and codes have each their own: what stops a run, the state after it and the test before it differ, and one
// function for both would take all three from its caller.
ghost use Rattle.std.specs.Prelude.{◌≡◌, true, false};
ghost use Rattle.linebox.specs.Names.{Host as Names-as-Host, Tu as Names-as-Tu};
ghost use Rattle.step.specs.State.{sound};
ghost use Rattle.linebox.specs.Call.{Runs};
ghost use Rattle.linebox.specs.Plain.{is_text};
ghost use Rattle.step.specs.Route.{route, is_printer};
ghost use Rattle.step.specs.Hear.{listens};

use crate::Ran;
use command::{Reader, Stage};
use sender::{Asks, Until};
use step::hears::is_heard;
use step::routes::prints;
use step::{State, Stream};

// Whether the command reader holds nothing.
fn is_text(stage: Stage) -> bool
    ensures { result ≡ is_text stage }
{
    matches!(stage, Stage::Text)
}

// No byte taken.
fn unmoved(state: State) -> Ran
    ensures { result ≡ record { state = state; taken = 0; count = 0 } }
{
    Ran {
        state,
        taken: 0,
        count: 0,
    }
}

// Plain text to the printer.
fn run_text(s: State, input: &[u8], line: &mut [u8]) -> Ran
    requires { (sound s ≡ true) × (is_printer (route s.connection Names-as-Host) ≡ true) × (is_text s.reader.stage ≡ true) × (listens s.calling s.connection ≡ false) }
    ensures { Runs Names-as-Host s input.now line.old line.new result }
{
    let until = Until::Byte(b'/');
    let x = sender::runs::send(s.settings, s.sender, Asks::Text, until, input, line);
    if x.taken == 0 {
        return unmoved(s);
    }
    Ran {
        state: State {
            sender: x.sender,
            reader: Reader::idle(),
            ..s
        },
        taken: x.taken,
        count: x.count,
    }
}

// The plain text that comes next, as far as there is room; none while it is heard.
pub fn take_text(s: State, input: &[u8], line: &mut [u8]) -> Ran
    requires { sound s ≡ true }
    ensures { Runs Names-as-Host s input.now line.old line.new result }
{
    if is_heard(s) || !prints(s.connection, Stream::Host) || !is_text(s.reader.stage) {
        return unmoved(s);
    }
    run_text(s, input, line)
}

// TU codes to the printer.
fn run_codes(s: State, codes: &[u8], line: &mut [u8]) -> Ran
    requires { (sound s ≡ true) × (is_printer (route s.connection Names-as-Tu) ≡ true) × (listens s.calling s.connection ≡ false) }
    ensures { Runs Names-as-Tu s codes.now line.old line.new result }
{
    let asks = Asks::Codes(s.incoming);
    let x = sender::runs::send(s.settings, s.sender, asks, Until::Above(31), codes, line);
    Ran {
        state: State {
            sender: x.sender,
            incoming: x.asks.case(),
            ..s
        },
        taken: x.taken,
        count: x.count,
    }
}

// The TU codes that come next, as far as there is room; none while they are heard.
pub fn take_codes(s: State, codes: &[u8], line: &mut [u8]) -> Ran
    requires { sound s ≡ true }
    ensures { Runs Names-as-Tu s codes.now line.old line.new result }
{
    if is_heard(s) || !prints(s.connection, Stream::Tu) {
        return unmoved(s);
    }
    run_codes(s, codes, line)
}
