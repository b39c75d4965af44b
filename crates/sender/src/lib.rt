// Sending to the line: the record of the printer's case and column, and the codes that bytes go out as, written straight into a
// buffer that has room for them.
#![tactic(auto)]

use code::Case;

mod codes;
mod items;
pub mod readings;
mod records;
pub mod runs;

// The record of the printer: its case and its column, where they are known. The column stays at 255.
#[derive(Clone, Copy)]
pub struct Record {
    pub case: Option<Case>,
    pub column: Option<u8>,
}

// A code asked for, in a case.
#[derive(Clone, Copy)]
pub struct Wanted {
    pub case: Case,
    pub code: u8,
}

// The record, and the last item, as option 72 asks of it: the shift that it was, none for any other or none.
#[derive(Clone, Copy)]
pub struct Sender {
    pub held: Record,
    pub last: Option<Case>,
}

// How the bytes of a stream ask for items: host text by its code or the stand-in's, TU codes in the incoming reading case.
// No `Option<Case>`: its `None` would have to be read as text.
#[derive(Clone, Copy)]
pub enum Asks {
    Text,
    Codes(Case),
}

// What stops a run of bytes, beside want of room: nothing, a byte, or any byte above one.
// No `impl Fn(u8) -> bool`: the bar is 139.1 M instructions, by the enum, for the benchmark's row with endings 50 times; with it 181.1 M.
// No `&dyn Fn(u8) -> bool`: it is called through a pointer, so that the stack of a call could not be told (benchmark/size refuses it).
#[derive(Clone, Copy)]
pub enum Until {
    Never,
    Byte(u8),
    Above(u8),
}

// Codes that went out: the record, or the sender, that is held after them, and how many they are.
#[derive(Clone, Copy)]
pub struct Noted<T> {
    pub held: T,
    pub count: usize,
}

// Bytes that went out: the sender after them and how the next ones ask, how many bytes they are, and how many codes they were.
#[derive(Clone, Copy)]
pub struct Sent {
    pub sender: Sender,
    pub asks: Asks,
    pub taken: usize,
    pub count: usize,
}
