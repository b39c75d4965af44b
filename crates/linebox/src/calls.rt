// The three calls, each a loop over the bytes of its stream. Answer 3 comes before all.
ghost use Rattle.std.specs.Prelude.{◌≡◌, true, length, drop};
ghost use Rattle.linebox.specs.Names.{Stream, Host as Names-as-Host, Line as Names-as-Line, Tu as Names-as-Tu};
ghost use Rattle.step.specs.State.{sound};
ghost use Rattle.linebox.specs.Call.{taking, call, ended_at, Calls};

use crate::runs::{take_codes, take_text};
use crate::{Answer, Called};
use step::State;
use step::host::put_read;
use step::line::put_line;
use step::sends::put_tu;
use step::soundness::is_sound;

// How the bytes of a stream are taken: from a sound state, as many as have room in the two lent buffers. `sound` stays a clause and
// the buffers stay apart: a struct would have to be made anew of each turn's state, and `Calls` and `Runs` name each buffer. The free part
// is lent by the count, as in `sender::runs::send`, since the count is handed back in any case.
pub trait Input {
    ghost stream: { Stream };

    fn take(start: State, input: &[u8], first: &mut [u8], second: &mut [u8]) -> Called
        requires { sound start ≡ true }
        ensures { Calls (taking stream start input.now (length first.old) (length second.old)) first.old second.old first.new second.new result };
}

// A call that ends here.
fn ended(answer: Answer, taken: usize, first: usize, second: usize, state: State) -> Called
    ensures { result ≡ ended_at answer taken first second state }
{
    Called {
        answer,
        taken,
        first,
        second,
        state,
    }
}

// Bytes from the host. They lend a line and a host buffer.
pub struct HostBytes;

impl Input for HostBytes {
    ghost stream = { Names-as-Host };

    // Host bytes from a sound state, as many as have room: a run of text, a run of what the command reader keeps, and the byte that makes
    // something, again and again.
    fn take(start: State, input: &[u8], line: &mut [u8], host: &mut [u8]) -> Called {
        let mut state = start;
        let mut rest = input;
        let mut one = 0;
        let mut two = 0;
        while !rest.is_empty() {
            let text = take_text(state, rest, &mut line[one..]);
            one += text.count;
            rest = &rest[text.taken..];
            let kept = text.state.reader.run(rest);
            state = State {
                reader: kept.reader,
                ..text.state
            };
            rest = &rest[kept.taken..];
            let [_, tail @ ..] = rest else {
                return ended(Answer::All, input.len(), one, two, state);
            };
            let Ok(x) = put_read(state, kept.next, &mut line[one..], &mut host[two..]) else {
                return ended(Answer::NoRoom, input.len() - rest.len(), one, two, state);
            };
            state = x.state;
            one += x.first;
            two += x.second;
            rest = tail;
        }
        ended(Answer::All, input.len(), one, two, state)
    }
}

// Codes from the line. They lend a host and a TU buffer.
pub struct LineCodes;

impl Input for LineCodes {
    ghost stream = { Names-as-Line };

    // Line codes from a sound state, as many as have room.
    fn take(start: State, codes: &[u8], host: &mut [u8], tu: &mut [u8]) -> Called {
        let mut state = start;
        let mut one = 0;
        let mut two = 0;
        for (taken, &c) in codes.iter().enumerate() {
            if 31 < c {
                return ended(Answer::NoCode, taken, one, two, state);
            }
            let Ok(x) = put_line(state, c, &mut host[one..], &mut tu[two..]) else {
                return ended(Answer::NoRoom, taken, one, two, state);
            };
            state = x.state;
            one += x.first;
            two += x.second;
        }
        ended(Answer::All, codes.len(), one, two, state)
    }
}

// Codes from the TU. They lend a line and a host buffer. Their loop is not that of host bytes: a turn of that has the command reader's run
// too, and a turn of this a test of the code; one loop for both would be handed either, and be no plainer.
pub struct TuCodes;

impl Input for TuCodes {
    ghost stream = { Names-as-Tu };

    // TU codes from a sound state, as many as have room: a run of codes, and the one that may not fit, again and again.
    fn take(start: State, codes: &[u8], line: &mut [u8], host: &mut [u8]) -> Called {
        let mut state = start;
        let mut rest = codes;
        let mut one = 0;
        let mut two = 0;
        while !rest.is_empty() {
            let run = take_codes(state, rest, &mut line[one..]);
            state = run.state;
            one += run.count;
            rest = &rest[run.taken..];
            let [code, tail @ ..] = rest else {
                return ended(Answer::All, codes.len(), one, two, state);
            };
            if 31 < *code {
                return ended(Answer::NoCode, codes.len() - rest.len(), one, two, state);
            }
            let Ok(x) = put_tu(state, *code, &mut line[one..], &mut host[two..]) else {
                return ended(Answer::NoRoom, codes.len() - rest.len(), one, two, state);
            };
            state = x.state;
            one += x.first;
            two += x.second;
            rest = tail;
        }
        ended(Answer::All, codes.len(), one, two, state)
    }
}

// What is left of the input from the first byte not taken on; nothing past its end.
pub fn rest(input: &[u8], taken: usize) -> &[u8]
    ensures { result.now ≡ drop taken input.now }
{
    input.get(taken..).unwrap_or(&[])
}

// A call of any stream, from the count taken so far: answer 3 where the state is not sound.
fn call<T: Input>(
    s: State,
    input: &[u8],
    from: usize,
    first: &mut [u8],
    second: &mut [u8],
) -> Called
    ensures { Calls (call T.stream s (drop from input.now) (length first.old) (length second.old)) first.old second.old first.new second.new result }
{
    if is_sound(s) {
        T::take(s, rest(input, from), first, second)
    } else {
        ended(Answer::Unsound, 0, 0, 0, s)
    }
}

// A host call lends a line and a host buffer. The input is the part from the count taken so far. Three names for the one call, since README
// and docs/PROMISES.md give them.
pub fn host(s: State, input: &[u8], from: usize, line: &mut [u8], host: &mut [u8]) -> Called
    ensures { Calls (call Names-as-Host s (drop from input.now) (length line.old) (length host.old)) line.old host.old line.new host.new result }
{
    call::<HostBytes>(s, input, from, line, host)
}

// A line call lends a host and a TU buffer. The codes are the part from the count taken so far.
pub fn line(s: State, codes: &[u8], from: usize, host: &mut [u8], tu: &mut [u8]) -> Called
    ensures { Calls (call Names-as-Line s (drop from codes.now) (length host.old) (length tu.old)) host.old tu.old host.new tu.new result }
{
    call::<LineCodes>(s, codes, from, host, tu)
}

// A TU call lends a line and a host buffer. The codes are the part from the count taken so far.
pub fn tu(s: State, codes: &[u8], from: usize, line: &mut [u8], host: &mut [u8]) -> Called
    ensures { Calls (call Names-as-Tu s (drop from codes.now) (length line.old) (length host.old)) line.old host.old line.new host.new result }
{
    call::<TuCodes>(s, codes, from, line, host)
}
