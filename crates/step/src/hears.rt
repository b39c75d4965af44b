// What the motor hears of a byte's items, and what the host is told of it.
ghost use Rattle.std.specs.Prelude.{◌≡◌, ℕ, ◌≤◌, ◌<◌, ◌++◌, length};
ghost use Rattle.laws.specs.Written.{Filled};
ghost use Rattle.sender.specs.Item.{wanted_of};
ghost use Rattle.motor.specs.Motor.{hearing_all};
ghost use Rattle.step.specs.Hear.{listens, codes_asked, asked_by, change, tells, Hears};

use crate::{Heard, State};
use code::Conversion;
use motor::{Motor, is_on};
use sender::Asks;
use settings::{Calling, Settings};

// Whether the motor of a state hears what is asked for.
#[tactic(auto, unfolding(crate::specs::Hear::listens))]
pub fn is_heard(s: State) -> bool
    ensures { result ≡ listens s.calling s.connection }
{
    (s.calling.power != 0) & (s.connection.port < 4)
}

// What two bytes at most are on the line, as they are asked for; nothing where there is none.
fn speak(o: Settings, asks: Asks, bytes: &[u8]) -> (Conversion, Conversion)
    requires { length bytes.now ≤ 2 }
    ensures { wanted_of result.0 ++ wanted_of result.1 ≡ asked_by o asks bytes.now }
{
    let table = convert::table();
    match bytes {
        [] => (Conversion::Nothing, Conversion::Nothing),
        [b] => (asks.convert(o, &table, *b), Conversion::Nothing),
        [b, c, ..] => (
            asks.convert(o, &table, *b),
            asks.next(o, *b).convert(o, &table, *c),
        ),
    }
}

// The motor after an item, where there is one.
fn hear_item(k: Calling, m: Motor, x: Conversion) -> Motor
    ensures { result ≡ hearing_all k m (codes_asked (wanted_of x)) }
{
    match x {
        Conversion::Nothing => m,
        Conversion::Free(c) | Conversion::Cased(_, c) => motor::hear(k, m, c),
    }
}

// Two bytes at most heard, as they are asked for. The bound stays a clause: `put_asked` of `sends` says why.
pub fn hear(s: State, asks: Asks, bytes: &[u8]) -> Heard
    requires { length bytes.now ≤ 2 }
    ensures { Hears s (asked_by s.settings asks bytes.now) result }
{
    if !is_heard(s) {
        return Heard {
            motor: s.motor,
            port: 0,
            was: 0,
            between: 0,
            after: 0,
        };
    }
    let (first, second) = speak(s.settings, asks, bytes);
    let then = hear_item(s.calling, s.motor, first);
    let last = hear_item(s.calling, then, second);
    Heard {
        motor: last,
        port: s.connection.port,
        was: u8::from(is_on(s.motor.run)),
        between: u8::from(is_on(then.run)),
        after: u8::from(is_on(last.run)),
    }
}

// How many bytes the host is told of a change.
#[tactic(auto, using(crate::proofs::Hearing::change_long))]
fn change_size(before: u8, after: u8) -> usize
    requires { after < 10 }
    ensures { (port : ℕ) → port < 10 → result ≡ length (change port before after) }
{
    if before == after { 0 } else { 17 }
}

// A change told at the front of the host buffer: the message with its two digits, `-.TC,20,2,port,after` framed. It is laid out here, for
// what is asked for in two places is not compiled into either, and an answer is to be made where the command was read. By `message::make`
// it would be no plainer: that answers an Option, where the room is known here.
#[tactic(auto, using(crate::proofs::Hearing::change_long))]
fn put_change(port: u8, before: u8, after: u8, out: &mut [u8]) -> usize
    requires { (port < 10) × (after < 10) × (length (change port before after) ≤ length out.old) }
    ensures { Filled out.old out.new (change port before after) result }
{
    if before == after {
        return 0;
    }
    let p = b'0' + port;
    let a = b'0' + after;
    let text = [
        13, 10, b'-', b'.', b'T', b'C', b',', b'2', b'0', b',', b'2', b',', p, b',', a, 13, 10,
    ];
    message::put(&text, out, 0)
}

impl Heard {
    // How many bytes the host is told.
    #[tactic(auto, using(crate::proofs::Hearing::change_short))]
    pub fn size(self) -> usize
        ensures { result ≡ length (tells self) }
    {
        change_size(self.was, self.between) + change_size(self.between, self.after)
    }

    // What the host is told, at the front of its buffer.
    pub fn put(self, out: &mut [u8]) -> usize
        requires { length (tells self) ≤ length out.old }
        ensures { Filled out.old out.new (tells self) result }
    {
        let n = put_change(self.port, self.was, self.between, out);
        let m = put_change(self.port, self.between, self.after, &mut out[n..]);
        n + m
    }
}
