// What can be kept of a paper record: the printer with a right stop, and the judgement of each code of a record. The carriage
// stays at the stop, and what is struck there lands there.
#![tactic(auto)]

use code::Case;

pub mod lines;
pub mod pages;
mod strikes;
mod watches;

// What is known of the carriage's place: it is there, or it is there or further on.
#[derive(Clone, Copy)]
pub enum Spot {
    At(u8),
    From(u8),
}

// Whether what a code was to print stands on the paper.
// Five kinds, and none of them a refusal: `Nothing` is itself the verdict on a code that strikes nothing. An Option is no plainer.
#[derive(Clone, Copy)]
pub enum Verdict {
    Nothing,
    Kept,
    Turned,
    Over,
    Unknown,
}

// The byte after so many codes is over 31, and no code.
#[derive(Clone, Copy)]
pub struct NoCode {
    pub taken: usize,
}

// A printer, and what is known of it at the start of a record: its case and its carriage's place; its stop, and on what it
// unshifts by itself.
#[derive(Clone, Copy)]
pub struct Start {
    pub case: Option<Case>,
    pub spot: Spot,
    pub stop: u8,
    pub onspace: bool,
    pub onreturn: bool,
}

// What is known of the sender and of the printer: the case of the shifts alone, whether the printer fell back to letters since
// the last of them, the carriage's place; and the printer's stop and on what it unshifts by itself.
#[derive(Clone, Copy)]
pub struct Watch {
    pub meant: Option<Case>,
    pub fell: bool,
    pub spot: Spot,
    pub stop: u8,
    pub onspace: bool,
    pub onreturn: bool,
}

// A code by itself: where it is struck, what is struck, and whether that was meant. A place is where it lands for sure; from a
// place on, it lands there or further on, or perhaps not at all.
#[derive(Clone, Copy)]
pub struct Strike {
    pub lands: Option<Spot>,
    pub sign: Option<u8>,
    pub own: Verdict,
}

// The judgement of a code: what the sender meant and what the printer struck, where they can be known, and whether it stands.
#[derive(Clone, Copy)]
pub struct Judgement {
    pub meant: Option<u8>,
    pub struck: Option<u8>,
    pub verdict: Verdict,
}

// How many codes were judged so.
#[derive(Clone, Copy, Default)]
pub struct Tally {
    pub kept: u64,
    pub turned: u64,
    pub over: u64,
    pub unknown: u64,
}

// A line of the paper. At each place: what is seen, and the number of its verdict, 0 where nothing was struck. What is struck at
// a place that is not known drifts: it is held by the first place that it may be at. With it, how many of each there were.
// `stand` stays a row of numbers: `Line::standings`, `strike`, `last_verdict` and `tally` (docs/PROMISES.md) answer for any bytes,
// and a verdict asks more.
// The three rows stay apart: each is shown whole, and the laws of what stands (`over_if`, `over_only`) speak of `stand` alone.
#[derive(Clone, Copy)]
pub struct Line {
    pub ink: [u8; 256],
    pub stand: [u8; 256],
    pub drift: [u8; 256],
    pub landed: u64,
    pub strays: u64,
}

// The page as far as the record was read: what is known, the line that is not ended, and the totals of those that are.
#[derive(Clone, Copy)]
pub struct Page {
    pub watch: Watch,
    pub line: Line,
    pub total: Tally,
}
