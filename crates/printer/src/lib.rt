// The printer of demand 3, defined apart from the box (specs/Printer.antt): definitions alone, and no code.
#![tactic(auto)]

use code::Case;

// A case, a count of places since the last return, and whether it goes back to letters by itself on a space and on a return.
#[derive(Clone, Copy)]
pub struct Printer {
    pub case: Case,
    pub count: u64,
    pub onspace: bool,
    pub onreturn: bool,
}

// A character on the paper, and where it lands, if it does.
#[derive(Clone, Copy)]
pub struct Mark {
    pub character: u8,
    pub lands: Option<u64>,
}
