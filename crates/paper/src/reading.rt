// A record as far as it was read. What is read is shown on the way.
ghost use Rattle.std.specs.Prelude.{◌≡◌};
ghost use Rattle.paper.specs.Reading.{begun, after_code, after_read, after_byte, after_bytes, after_last};

use crate::output::Output;
use judgement::{Page, Start, pages};
use words::{BadWord, Read, Reader};

// The record as far as it was read: the words, the page, and the number of its line.
#[derive(Clone, Copy)]
pub struct Record {
    pub reader: Reader,
    pub page: Page,
    pub number: u64,
}

impl Record {
    // A record of which nothing was read.
    pub fn begin(o: Start) -> Record
        ensures { result ≡ begun o }
    {
        Record {
            reader: Reader::fresh(),
            page: Page::start(o),
            number: 1,
        }
    }

    // Takes a code; a line feed shows the line that it ends.
    fn take_code(&mut self, out: &mut Output<'_, impl Print>, c: u8)
        ensures { self.new ≡ after_code self.old c }
    {
        if pages::feeds(c) {
            crate::print_line(out, &self.page.line, self.number);
            self.number = self.number.wrapping_add(1);
        }
        let _ = self.page.step(c);
    }

    // Takes what was read: a code, if there is one. A bad word is shown, and ends the record.
    fn take(&mut self, out: &mut Output<'_, impl Print>, read: Read) -> Result<(), BadWord>
        ensures answer { result ≡ (after_read self.old read).answer }
        ensures record { self.new ≡ (after_read self.old read).upto }
    {
        self.reader = read.reader;
        match read.item {
            Ok(None) => Ok(()),
            Ok(Some(c)) => {
                self.take_code(out, c);
                Ok(())
            }
            Err(bad) => {
                crate::print_bad_word(out, &self.reader);
                Err(bad)
            }
        }
    }

    // Takes some bytes, up to the end of a bad word.
    pub fn take_bytes(&mut self, out: &mut Output<'_, impl Print>, s: &[u8]) -> Result<(), BadWord>
        ensures answer { result ≡ (after_bytes self.old s.now).answer }
        ensures record { self.new ≡ (after_bytes self.old s.now).upto }
    {
        for b in s {
            self.take(out, self.reader.read_byte(*b))?;
        }
        Ok(())
    }

    // Takes the end of the bytes, which ends the last word.
    pub fn take_last(&mut self, out: &mut Output<'_, impl Print>) -> Result<(), BadWord>
        ensures answer { result ≡ (after_last self.old).answer }
        ensures record { self.new ≡ (after_last self.old).upto }
    {
        self.take(out, self.reader.finish())
    }
}
