// Runs the firmware paper's tables, its commands and the traced lines, as standard input has them, and says where they differ.
// A line is one entry of a table, a traced line or a comment. Traced lines and commands are each one call of a box that goes on
// from line to line. After a bar come the fields, a bar after each: `N` a fresh box; `H` host bytes, and the line codes and host
// bytes that come of them; `L` line codes, and host bytes and TU codes; `T` TU codes, and line codes and host bytes; `F` bytes, and
// the message found in them. A call takes all of its input, unless one field more has its answer and the count taken. `R` has the
// next call's two rooms and the count taken so far; `Z` puts a number into setting 50 behind the box's back.
#![tactic(auto)]

ghost use Rattle.std.specs.Prelude.{◌≤◌, length};

use entries::tables::{Entry, run_entry};
use entries::text::{Form, after_bar, before_bar, byte_at, decode, front};
use entries::traces::{Ran, Start, judged, prepared, ready};
use linebox::{Answer, Called};
use std::io::Read;
use step::Stream;

// How many vectors of a kind were run, and how many differ.
#[derive(Clone, Copy, Default)]
struct Tally {
    run: u64,
    differ: u64,
}

impl Tally {
    // Counts one vector more; one that differs is printed.
    fn count(&mut self, rt: &impl Print, same: bool, s: &[u8]) {
        self.run = self.run.wrapping_add(1);
        if !same {
            self.differ = self.differ.wrapping_add(1);
            print_differs(rt, s);
        }
    }

    // Prints the name of a kind of vectors, what one is called, and this tally of them.
    fn print(&self, rt: &impl Print, name: &str, each: &str) {
        let _ = print!(rt; "{name}");
        let _ = print!(rt; "{}", self.run);
        let _ = print!(rt; "{each}");
        let _ = print!(rt; "{}", self.differ);
        let _ = print!(rt; " differ\n");
    }
}

// What was run of each kind, and what the next line starts with.
#[derive(Clone, Copy)]
struct Tallies {
    ascii: Tally,
    ustty: Tally,
    traces: Tally,
    next: Start,
}

// Prints a vector that differs. A write that fails, here and below, ends nothing: the next one may go out.
fn print_differs(rt: &impl Print, s: &[u8]) {
    let _ = print!(rt; "differs: ");
    let _ = rt.write_all(s);
    let _ = println!(rt);
}

// The bytes that a text spells, in a lent buffer.
fn decoded<'a>(form: Form, text: &[u8], out: &'a mut [u8]) -> &'a [u8] {
    let n = decode(form, text, out);
    front(out, n)
}

// Codes as a log sheet spells them, in a lent buffer.
fn spelled<'a>(codes: &[u8], out: &'a mut [u8]) -> &'a [u8] {
    let n = sheet::spell(codes, out).unwrap_or(0);
    front(out, n)
}

// Bytes are those that a text means.
fn is_shown(form: Form, s: &[u8], text: &[u8]) -> bool {
    let mut out = [0u8; 1024];
    match form {
        Form::Decimal => spelled(s, &mut out) == text,
        Form::Escaped => s == decoded(form, text, &mut out),
    }
}

// Prints what a box gave.
fn print_shown(rt: &impl Print, form: Form, s: &[u8]) {
    let mut out = [0u8; 1024];
    let _ = print!(rt; "gave:");
    let _ = match form {
        Form::Decimal => rt.write_all(spelled(s, &mut out)),
        Form::Escaped => rt.write_all(s),
    };
    let _ = print!(rt; "; ");
}

// A call's answer and the count it took are those of a text, or all that was left where the text is empty.
fn is_ended(c: Called, left: usize, text: &[u8]) -> bool {
    if text.is_empty() {
        return matches!(c.answer, Answer::All) && c.taken == left;
    }
    let number = (u32::from(c.answer) % 256) as u8;
    is_shown(Form::Decimal, &[number, (c.taken % 256) as u8], text)
}

// A call of a stream that lends the rooms asked for.
// By the stream and not by a type that takes it (linebox's `Input`): the stream of such a type is ghost, and the forms need it as a value.
fn call(t: Stream, b: Start, input: &[u8], one: &mut [u8; 255], two: &mut [u8; 255]) -> Called {
    let from = usize::from(b.from);
    let first = &mut one[..usize::from(b.first)];
    let second = &mut two[..usize::from(b.second)];
    match t {
        Stream::Host => linebox::calls::host(b.state, input, from, first, second),
        Stream::Line => linebox::calls::line(b.state, input, from, first, second),
        Stream::Tu => linebox::calls::tu(b.state, input, from, first, second),
    }
}

// `H`, `L` or `T` with the input, the first output and the second: a call of that stream. The handle, the start and the text go to three
// functions, each asked for once: a struct of them would be no plainer.
fn run_call(rt: &impl Print, t: Stream, b: Start, s: &[u8]) -> Ran {
    let given = after_bar(s);
    let first = after_bar(given);
    let second = after_bar(first);
    let mut input = [0u8; 512];
    let whole = decoded(Form::taken(t), before_bar(given), &mut input);
    let mut one = [0u8; 255];
    let mut two = [0u8; 255];
    let r = call(t, b, whole, &mut one, &mut two);
    let left = linebox::calls::rest(whole, usize::from(b.from)).len();
    let sent = front(&one, r.first);
    let told = front(&two, r.second);
    let same = is_ended(r, left, before_bar(after_bar(second)))
        && is_shown(Form::first(t), sent, before_bar(first))
        && is_shown(Form::second(t), told, before_bar(second));
    if !same {
        print_shown(rt, Form::first(t), sent);
        print_shown(rt, Form::second(t), told);
    }
    judged(same, r.state)
}

// `F|bytes|message|`: the finder.
fn run_find(rt: &impl Print, b: Start, s: &[u8]) -> Ran {
    let given = after_bar(s);
    let mut input = [0u8; 512];
    let found = message::find(decoded(Form::Escaped, before_bar(given), &mut input));
    let same = is_shown(Form::Escaped, found, before_bar(after_bar(given)));
    if !same {
        print_shown(rt, Form::Escaped, found);
    }
    judged(same, b.state)
}

// One traced line.
fn run_trace(rt: &impl Print, b: Start, s: &[u8]) -> Ran {
    match byte_at(s, 0) {
        b'H' => run_call(rt, Stream::Host, b, s),
        b'L' => run_call(rt, Stream::Line, b, s),
        b'T' => run_call(rt, Stream::Tu, b, s),
        b'F' => run_find(rt, b, s),
        b'N' => prepared(ready(step::soundness::fresh())),
        b'R' => prepared(b.lending(s)),
        b'Z' => prepared(b.limited(s)),
        _ => prepared(b),
    }
}

impl Tallies {
    // Nothing run yet, and a fresh box.
    fn fresh() -> Tallies {
        Tallies {
            ascii: Tally::default(),
            ustty: Tally::default(),
            traces: Tally::default(),
            next: ready(step::soundness::fresh()),
        }
    }

    // Runs one line.
    fn run_line(&mut self, rt: &impl Print, s: &[u8]) {
        match run_entry(s) {
            Some(Entry::Ascii(same)) => self.ascii.count(rt, same, s),
            Some(Entry::Ustty(same)) => self.ustty.count(rt, same, s),
            None => {
                let r = run_trace(rt, self.next, s);
                if let Some(same) = r.same {
                    self.traces.count(rt, same, s);
                }
                self.next = r.next;
            }
        }
    }

    // Runs all lines of the text.
    fn run_all(&mut self, rt: &impl Print, s: &[u8]) {
        for line in s.split(|b| *b == b'\n') {
            self.run_line(rt, line);
        }
    }
}

// Reads until the buffer is full or the input ends or fails, and gives how many bytes came. The count is by hand: `read_exact` fails where
// the input ends early and tells no count, and `read_to_end` takes a Vec, which has no limit.
fn read_full(input: &mut impl Read, s: &mut [u8]) -> usize
    ensures { result ≤ length s.new }
{
    let mut n = 0;
    while let Ok(more @ 1..) = input.read(&mut s[n..]) {
        n += more;
    }
    n
}

fn main(rt: HostRuntime) {
    let mut text = [0u8; 65536];
    let n = read_full(&mut rt.reader(), &mut text);
    let mut t = Tallies::fresh();
    t.run_all(&rt, &text[..n]);
    t.ascii.print(&rt, "ASCII-67 to USTTY: ", " entries, ");
    t.ustty.print(&rt, "USTTY to ASCII-67: ", " entries, ");
    t.traces.print(&rt, "Traces and commands: ", " vectors, ");
}
