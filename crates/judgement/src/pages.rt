// The page: a record's codes, taken one at a time and many at a time, and the judgement of each.
ghost use Rattle.std.specs.Prelude.{◌≡◌, length};
ghost use Rattle.judgement.specs.Verdict.{answer_of};
ghost use Rattle.judgement.specs.Page.{start, feeds, page_after, step, taken_of, run, totals};

use crate::{Line, NoCode, Page, Start, Tally, Watch};
use code::Case;

// The number of a refusal.
impl From<NoCode> for u8 {
    ghost from_gives = { λ _ r. r ≡ 2 };

    fn from(_e: NoCode) -> u8 {
        2
    }
}

// The number of an answer.
pub fn number_of(a: Result<(), NoCode>) -> u8
    ensures { result ≡ answer_of a }
{
    match a {
        Ok(()) => 0,
        Err(e) => u8::from(e),
    }
}

// Whether a code ends a line of the paper.
pub fn feeds(c: u8) -> bool
    ensures { result ≡ feeds c }
{
    code::row_at(Case::Letters, c) == b'\n'
}

impl Page {
    // A bare page in a printer with a stop, and what is known of the printer.
    pub fn start(o: Start) -> Page
        ensures { result ≡ start o.case o.spot o.stop o.onspace o.onreturn }
    {
        Page {
            watch: Watch {
                meant: o.case,
                fell: false,
                spot: o.spot.within(o.stop),
                stop: o.stop,
                onspace: o.onspace,
                onreturn: o.onreturn,
            },
            line: Line::bare(),
            total: Tally::default(),
        }
    }

    // Takes a code.
    fn take(&mut self, c: u8)
        ensures { self.new ≡ page_after self.old c }
    {
        if feeds(c) {
            self.total = self.total + self.line.tally();
            self.line = Line::bare();
        } else {
            self.line.strike(self.watch.strike(c));
        }
        self.watch = self.watch.after(c);
    }

    // Takes a byte, which is a code up to 31. Over 31 it is none, and the page stays as it was.
    pub fn step(&mut self, c: u8) -> Result<(), NoCode>
        ensures answer { result ≡ (step self.old c).answer }
        ensures page { self.new ≡ (step self.old c).page }
    {
        if c > 31 {
            return Err(NoCode { taken: 0 });
        }
        self.take(c);
        Ok(())
    }

    // Takes all codes up to the first byte that is none.
    pub fn run(&mut self, codes: &[u8]) -> Result<(), NoCode>
        ensures answer { result ≡ (run self.old codes.now).answer }
        ensures taken { taken_of result (length codes.now) ≡ (run self.old codes.now).taken }
        ensures page { self.new ≡ (run self.old codes.now).page }
    {
        for (i, c) in codes.iter().enumerate() {
            self.step(*c).map_err(|_| NoCode { taken: i })?;
        }
        Ok(())
    }

    // The totals, with the line that is not ended yet.
    pub fn totals(&self) -> Tally
        ensures { result ≡ totals self.now }
    {
        self.total + self.line.tally()
    }
}
