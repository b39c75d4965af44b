// Bytes sent one after the other, as long as the buffer has room for the most codes that a byte can be.
ghost use Rattle.std.specs.Prelude.{◌≡◌, ◌≤◌, ◌<◌, length};
ghost use Rattle.std.specs.Option.{option_to_list};
ghost use Rattle.convert.specs.Entry.{Tabled};
ghost use Rattle.sender.specs.Item.{items, wanted_of, spoken, converted};
ghost use Rattle.sender.specs.Run.{asks_next, case_asked, stops_at, PutsItems, run_of, SendsRun};

use crate::readings::case_after;
use crate::{Asks, Noted, Sender, Sent, Until, Wanted};
use code::{Case, Conversion};
use settings::Settings;

// The most codes that a byte can be: two for each of string 90's eight, and two for its own.
const MOST: usize = 18;

// What a byte of text is on the line by the table lent: its own code, or where it has none the stand-in's, unless option 77 is 0.
// `Tabled` of the table is asked here, in `Asks::convert` and by `convert::look_up`, which docs/PROMISES.md names over the bytes lent.
fn speak(o: Settings, table: &[u8], b: u8) -> Conversion
    requires { Tabled table.now }
    ensures { result ≡ spoken o b }
{
    match convert::look_up(table, b) {
        Conversion::Nothing if o.stand_in() != 0 => convert::look_up(table, o.stand_in()),
        own => own,
    }
}

impl Asks {
    // What a byte stands for: text by the table lent, a TU code in the incoming reading case.
    pub fn convert(self, o: Settings, table: &[u8], b: u8) -> Conversion
        requires { Tabled table.now }
        ensures { result ≡ converted o self b }
    {
        match self {
            Asks::Text => speak(o, table, b),
            Asks::Codes(case) => Conversion::Cased(case, b),
        }
    }

    // How the byte after this one asks.
    pub fn next(self, o: Settings, b: u8) -> Asks
        ensures { result ≡ asks_next o self b }
    {
        match self {
            Asks::Text => Asks::Text,
            Asks::Codes(case) => {
                Asks::Codes(case_after(o.onspace(), o.onreturn(), case, code::kind_of(b)))
            }
        }
    }

    // The incoming reading case that the next code asks in.
    pub fn case(self) -> Case
        ensures { result ≡ case_asked self }
    {
        match self {
            Asks::Text => Case::Letters,
            Asks::Codes(case) => case,
        }
    }
}

impl Until {
    // Whether a run of bytes stops before this one.
    fn stops(self, b: u8) -> bool
        ensures { result ≡ stops_at self b }
    {
        match self {
            Until::Never => false,
            Until::Byte(x) => b == x,
            Until::Above(x) => x < b,
        }
    }
}

// The code asked for with the case that it wants, where there is one: one that does not depend on case wants any.
fn wanted(x: Conversion) -> Option<Wanted>
    ensures { option_to_list result ≡ wanted_of x }
{
    match x {
        Conversion::Nothing => None,
        Conversion::Free(code) => Some(Wanted {
            case: Case::Letters,
            code,
        }),
        Conversion::Cased(case, code) => Some(Wanted { case, code }),
    }
}

impl Sender {
    // The item asked for, if there is one.
    fn put_asked(self, o: Settings, asked: Option<Wanted>, out: &mut [u8]) -> Noted<Sender>
        requires { length (items o self (option_to_list asked)) ≤ length out.old }
        ensures { PutsItems o self (option_to_list asked) out.old out.new result }
    {
        match asked {
            None => Noted {
                held: self,
                count: 0,
            },
            Some(w) => self.put_item(o, w, out),
        }
    }
}

// The bytes one after the other, at the front of the buffer, up to one that stops them and while any byte's codes have room.
// `&mut out[count..]` and no slice that shrinks: the count is handed back in any case, so one that shrinks would be a second beside it.
pub fn send(
    o: Settings,
    start: Sender,
    first: Asks,
    until: Until,
    bytes: &[u8],
    out: &mut [u8],
) -> Sent
    ensures { SendsRun (run_of o start first until bytes.now (length out.old)) out.old out.new result }
{
    let table = convert::table();
    let mut sender = start;
    let mut asks = first;
    let mut count = 0;
    for (taken, b) in bytes.iter().enumerate() {
        if until.stops(*b) || out.len() - count < MOST {
            return Sent {
                sender,
                asks,
                taken,
                count,
            };
        }
        let x = asks.convert(o, &table, *b);
        let y = sender.put_asked(o, wanted(x), &mut out[count..]);
        asks = asks.next(o, *b);
        sender = y.held;
        count += y.count;
    }
    Sent {
        sender,
        asks,
        taken: bytes.len(),
        count,
    }
}
