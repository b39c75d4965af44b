// The log sheet: standard input to a fresh box as host bytes. Prints the codes that go to the line, and how many bytes go back
// to the host.
#![tactic(auto)]

use std::env::{Env, FillError};
use std::io::Read;
use std::{fmt, io};
use step::State;

// What stopped the sheet.
#[derive(Drop)]
enum Failure {
    NotRead(io::Error),
    NotWritten(io::Error),
}

impl fmt::Display for Failure {
    // Which of the two it was, and why.
    fn fmt<W: fmt::Write>(&self, f: &mut fmt::Formatter<W>) -> fmt::Result {
        match self {
            Failure::NotRead(e) => write!(f, "standard input: {e}"),
            Failure::NotWritten(e) => write!(f, "standard output: {e}"),
        }
    }
}

// The box, and how many bytes went to the host.
#[derive(Drop)]
struct Sheet {
    state: State,
    host: u64,
}

// Prints codes, each in decimal after a space.
fn print_codes(rt: &impl Print, codes: &[u8]) -> Result<(), Failure> {
    let mut text = [0u8; 262144];
    let n = sheet::spell(codes, &mut text).unwrap_or(0);
    let spelled = text.get(..n).unwrap_or(&text);
    rt.write_all(spelled).map_err(Failure::NotWritten)
}

impl Sheet {
    // The sheet of a fresh box.
    fn fresh() -> Sheet {
        Sheet {
            state: step::soundness::fresh(),
            host: 0,
        }
    }

    // One call on what is left of the input, its codes printed. Gives how many bytes it took.
    fn feed(&mut self, rt: &impl Print, rest: &[u8]) -> Result<usize, Failure> {
        let mut line = [0u8; 65536];
        let mut host = [0u8; 4096];
        let r = linebox::calls::host(self.state, rest, 0, &mut line, &mut host);
        self.state = r.state;
        self.host = self.host.wrapping_add(r.second as u64);
        print_codes(rt, line.get(..r.first).unwrap_or(&line))?;
        Ok(r.taken)
    }

    // The whole input, call after call: each is handed the rest from the first byte not taken.
    fn feed_all(&mut self, rt: &impl Print, input: &[u8]) -> Result<(), Failure> {
        let mut rest = input;
        while !rest.is_empty() {
            let taken = self.feed(rt, rest)?;
            if taken == 0 {
                return Ok(());
            }
            rest = rest.get(taken..).unwrap_or(&[]);
        }
        Ok(())
    }

    // Reads until the input ends or something fails. A proved loop has to end, so it counts its turns, up to a number that no run
    // reaches.
    fn read_all(&mut self, rt: &impl Print, input: &mut impl Read) -> Result<(), Failure> {
        let mut buf = [0u8; 65536];
        for _ in 0..u64::MAX {
            match input.read(&mut buf).map_err(Failure::NotRead)? {
                0 => return Ok(()),
                n => self.feed_all(rt, &buf[..n])?,
            }
        }
        Ok(())
    }
}

// Prints the sheet of the input, and says on standard error what failed, and why. A write that fails here ends nothing: the next one may go
// out.
fn print_sheet(rt: &(impl Print + Eprint), input: &mut impl Read) {
    let _ = print!(rt; "line");
    let mut sheet = Sheet::fresh();
    let told = sheet.read_all(rt, input);
    let _ = println!(rt);
    match told {
        Ok(()) => {
            let _ = print!(rt; "host ");
            let _ = print!(rt; "{}", sheet.host);
            let _ = println!(rt);
        }
        Err(e) => {
            let _ = eprintln!(rt; "{e}");
        }
    }
}

// Names an argument, which the program does not take, with dots for the rest of it, and says how the program is used.
fn print_bad_argument(rt: &impl Print, s: &[u8], is_whole: bool) {
    let _ = print!(rt; "logsheet: argument 1, `");
    let _ = rt.write_all(s);
    if !is_whole {
        let _ = print!(rt; "..");
    }
    let _ = print!(rt; "`: it takes no argument; use: ./logsheet < NIGHT\n");
}

fn main(rt: HostRuntime) {
    let mut buf = [0u8; 64];
    match rt.arg(1, &mut buf) {
        Ok(n) => print_bad_argument(&rt, &buf[..n], true),
        Err(FillError::TooLong) => print_bad_argument(&rt, &buf, false),
        Err(FillError::NotPresent) => print_sheet(&rt, &mut rt.reader()),
    }
}
