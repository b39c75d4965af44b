// Shows a record as it stood on the paper of a printer with a right stop, and what of it can be kept. The codes come from
// standard input, and the printer is described by the arguments.
#![tactic(auto)]

mod options;
mod output;
mod reading;
mod show;

use judgement::{Line, Start, Tally, Verdict};
use output::Output;
use reading::Record;
use show::Stretch;
use std::env::{Env, FillError};
use std::io;
use std::io::Read;
use words::Reader;

// An argument is none of those that there are.
#[derive(Drop)]
struct BadArgument;

// What is shown goes out a text or a number at a time: standard output has no buffer, and what came out before a write that fails is as
// it was in the older form.

// Says which word is no code, and that the page ends before it. Of a word that is too long its first bytes are shown.
fn print_bad_word(out: &mut Output<'_, impl Print>, r: &Reader) {
    out.print("paper: word ");
    out.print(r.place);
    out.print(", `");
    match r.held.get(..r.size) {
        Some(word) => out.write(word),
        None => {
            out.write(&r.held);
            out.print("..");
        }
    }
    out.print("`, is no code from 0 to 31: nothing from its line on is shown\n");
}

// Prints a row after a mark.
fn print_row(out: &mut Output<'_, impl Print>, mark: &str, row: &[u8; 256]) {
    let mut text = *row;
    show::space(&mut text);
    out.print(mark);
    out.write(&text[..show::row_size(row)]);
    out.print("\n");
}

// Prints a stretch.
fn print_stretch(out: &mut Output<'_, impl Print>, s: Stretch) {
    out.print(" ");
    out.print(s.from);
    if s.from < s.to {
        out.print("-");
        out.print(s.to);
    }
}

// Prints the places that stand as `v`, after a name, if there are any.
fn print_places(out: &mut Output<'_, impl Print>, name: &str, standings: &[u8], v: Verdict) {
    let v = u8::from(v);
    if standings.contains(&v) {
        out.print(name);
    }
    let mut held = None;
    for (i, x) in standings.iter().enumerate() {
        let next = show::after_place(held, i, *x, v);
        if let (Some(s), None) = (held, next) {
            print_stretch(out, s);
        }
        held = next;
    }
    if let Some(s) = held {
        print_stretch(out, s);
    }
}

// Prints which places of a line can be kept, and which cannot.
fn print_kept(out: &mut Output<'_, impl Print>, line: &Line, number: u64) {
    let standings = line.standings();
    out.print("  line ");
    out.print(number);
    if standings.contains(&u8::from(Verdict::Kept)) {
        print_places(out, ": kept", &standings, Verdict::Kept);
    } else if show::is_marked(line) {
        out.print(": kept none");
    } else {
        out.print(": nothing struck");
    }
    print_places(out, "; turned", &standings, Verdict::Turned);
    print_places(out, "; struck over", &standings, Verdict::Over);
    print_places(out, "; unknown", &standings, Verdict::Unknown);
    if line.strays > 0 {
        out.print("; unknown where ");
        out.print(line.strays);
    }
    out.print("\n");
}

// Prints a line of the paper and what of it can be kept. What is at no known place goes on a row of its own.
fn print_line(out: &mut Output<'_, impl Print>, line: &Line, number: u64) {
    if line.strays > 0 {
        print_row(out, "~", &line.drift);
    }
    if line.landed > 0 || line.strays == 0 {
        print_row(out, "|", &line.ink);
    }
    print_kept(out, line, number);
}

// Prints the totals.
fn print_totals(out: &mut Output<'_, impl Print>, t: Tally) {
    out.print("total: kept ");
    out.print(t.kept);
    out.print(", turned ");
    out.print(t.turned);
    out.print(", struck over ");
    out.print(t.over);
    out.print(", unknown ");
    out.print(t.unknown);
    out.print("\n");
}

// Says which argument is none, and what there is.
fn print_bad_argument(out: &mut Output<'_, impl Print>, i: usize, s: &[u8]) {
    out.print("paper: argument ");
    out.print(i);
    out.print(", `");
    out.write(s);
    out.print(
        "`, is none of these:\n  stop=N  (72) the right stop, 0 to 255: how many places stand before it\n",
    );
    out.print(
        "  space=unshifts or space=keeps  (keeps)\n  return=unshifts or return=keeps  (keeps)\n",
    );
    out.print("  case=letters, case=figures or case=unknown  (unknown) at the start\n");
    out.print("  place=N or place=unknown  (unknown) at the start, 0 to 255\n");
}

// The start after the argument of this number, if there is one. One that is none of them is shown.
fn read_argument(
    rt: &impl Env,
    out: &mut Output<'_, impl Print>,
    o: Start,
    i: usize,
) -> Result<Option<Start>, BadArgument> {
    let mut buf = [0u8; 64];
    let (next, shown) = match rt.arg(i, &mut buf) {
        Ok(n) => (options::with_argument(o, &buf[..n]), n),
        Err(FillError::TooLong) => (None, 64),
        Err(FillError::NotPresent) => return Ok(None),
    };
    if next.is_none() {
        print_bad_argument(out, i, &buf[..shown]);
        return Err(BadArgument);
    }
    Ok(next)
}

// What all arguments say.
fn read_arguments(rt: &impl Env, out: &mut Output<'_, impl Print>) -> Result<Start, BadArgument> {
    let mut o = options::start();
    for i in 1..usize::MAX {
        match read_argument(rt, out, o, i)? {
            Some(next) => o = next,
            None => break,
        }
    }
    Ok(o)
}

// At the end of the record: its last word, the line that was not fed out, and the totals.
fn finish(out: &mut Output<'_, impl Print>, r: &mut Record) {
    if r.take_last(out).is_err() {
        return;
    }
    if show::is_marked(&r.page.line) {
        print_line(out, &r.page.line, r.number);
    }
    print_totals(out, r.page.totals());
}

// Reads the record to its end, while it can be shown.
fn take_all(out: &mut Output<'_, impl Print>, input: &mut impl Read, r: &mut Record) {
    let mut buf = [0u8; 4096];
    for _ in 0..u64::MAX {
        if !out.is_open() {
            return;
        }
        match input.read(&mut buf) {
            Ok(0) => return finish(out, r),
            Ok(n) => {
                if r.take_bytes(out, &buf[..n]).is_err() {
                    return;
                }
            }
            Err(_) => return out.print("paper: the record cannot be read to its end\n"),
        }
    }
}

fn main(rt: HostRuntime) -> io::Result<()> {
    let mut out = Output::new(&rt);
    if let Ok(o) = read_arguments(&rt, &mut out) {
        take_all(&mut out, &mut rt.reader(), &mut Record::begin(o));
    }
    out.finish()
}
