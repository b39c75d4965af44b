// Where the program shows what it has to show. The first write that fails is kept, and nothing is written after it.
ghost use Rattle.std.specs.Prelude.{◌≡◌, IsOk, IsErr};
ghost use Rattle.std.specs.Result.{is_ok};

use std::fmt::Display;
use std::io;

#[derive(Drop)]
pub struct Output<'a, P> {
    to: &'a P,
    written: io::Result<()>,
}

impl<'a, P: Print> Output<'a, P> {
    // An output that nothing was written to.
    pub fn new(to: &'a P) -> Output<'a, P>
        ensures { IsOk result.written }
    {
        Output {
            to,
            written: Ok(()),
        }
    }

    // Whether each write so far went well.
    pub fn is_open(&self) -> bool
        ensures { result ≡ is_ok self.now.written }
    {
        self.written.is_ok()
    }

    // Writes some bytes.
    pub fn write(&mut self, s: &[u8])
        ensures { IsErr self.old.written → self.new ≡ self.old }
    {
        if self.is_open() {
            self.written = self.to.write_all(s);
        }
    }

    // Writes what can be shown as text.
    pub fn print(&mut self, x: impl Display + Drop)
        ensures { IsErr self.old.written → self.new ≡ self.old }
    {
        if self.is_open() {
            self.written = self.to.print(x);
        }
    }

    // How the writes went.
    pub fn finish(self) -> io::Result<()>
        ensures { result ≡ self.entry.written }
    {
        self.written
    }
}
