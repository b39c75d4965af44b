// What one byte does: the state after it, and its output in the free parts of the lent buffers.
#![tactic(auto)]

ghost use Rattle.std.specs.Prelude.{◌<◌};

mod answers;
pub mod hears;
pub mod host;
pub mod line;
mod puts;
pub mod routes;
pub mod sends;
pub mod soundness;
pub mod states;

use code::Case;
use command::Reader;
use motor::Motor;
use sender::Sender;
use settings::{Calling, Connection, Settings};

// Where a byte comes from.
#[derive(Clone, Copy)]
pub enum Stream {
    Host,
    Line,
    Tu,
}

// Where the bytes of a stream go: nowhere, to the printer, to the host or to the TU.
#[derive(Clone, Copy, PartialEq, Eq)]
pub enum Route {
    Dropped,
    ToPrinter,
    ToHost,
    ToTu,
}

// All that the box knows. The fields' sizes: settings 15, connection 3, sender 6 (record 4, last item 2), the two cases 2, the
// command reader 15, how a station is called 41, the motor 10: 92 bytes.
#[derive(Clone, Copy)]
pub struct State {
    pub settings: Settings,
    pub connection: Connection,
    pub sender: Sender,
    pub reading: Case,
    pub incoming: Case,
    pub reader: Reader,
    pub calling: Calling,
    pub motor: Motor,
}

// The motor after one byte's items, its port, and whether it was on (1) or off (0) before them, between them and after them.
// Numbers and no bools: `size` and `put` promise what is told (`tells`) of any digits here, and a bool would ask more of their callers.
#[derive(Clone, Copy)]
pub struct Heard {
    pub motor: Motor,
    pub port: u8,
    pub was: u8,
    pub between: u8,
    pub after: u8,
    pub ghost one_digit: { (port < 10) × (between < 10) × (after < 10) },
}

// The output of the byte does not all fit. With it, the state that the byte leads to.
#[derive(Clone, Copy)]
pub struct NoRoom {
    pub state: State,
}

// One byte's output put into both buffers: the state after the byte, and how many places were written.
#[derive(Clone, Copy)]
pub struct Taken {
    pub state: State,
    pub first: usize,
    pub second: usize,
}
