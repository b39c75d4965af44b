// Host bytes: text to the line, commands to the settings and answers to the host.
ghost use Rattle.std.specs.Prelude.{◌≡◌, ◌≤◌, drop};
ghost use Rattle.command.specs.Read.{text_of};
ghost use Rattle.settings.specs.Laws.{Sound};
ghost use Rattle.step.specs.Names.{Host as Names-as-Host};
ghost use Rattle.step.specs.State.{with_reader};
ghost use Rattle.step.specs.Step.{hosted};
ghost use Rattle.step.specs.Byte.{Offers};

use crate::answers::put_answer;
use crate::sends::put_text;
use crate::{NoRoom, State, Taken};
use command::{Out, Step};

// The text that the command reader made of a byte: the end of a `/` and a byte, of both where the `/` was held. An array and where it
// begins, since the box has no heap; `text` gives the part.
#[derive(Clone, Copy)]
struct Said {
    bytes: [u8; 2],
    from: usize,
    ghost within: { from ≤ 2 },
}

impl Said {
    // What is said by a byte; a command says nothing.
    fn by(out: Out) -> Said
        ensures { drop result.from result.bytes ≡ text_of out }
    {
        let (byte, from) = match out {
            Out::Two(b) => (b, 0),
            Out::One(b) => (b, 1),
            Out::Nothing | Out::Finished(_, _) => (0, 2),
        };
        Said {
            bytes: [b'/', byte],
            from,
        }
    }

    // Its bytes.
    fn text(&self) -> &[u8]
        ensures { result.now ≡ drop self.now.from self.now.bytes }
    {
        &self.bytes[self.from..]
    }
}

// One host byte, by what the command reader made of it, with the parts of the line and host buffers that are free. Text has one place
// here: what is asked for in two is not compiled into either, and the state would be laid out for it with every command.
pub fn put_read(s: State, x: Step, line: &mut [u8], host: &mut [u8]) -> Result<Taken, NoRoom>
    requires { Sound s.settings s.calling s.connection }
    ensures { Offers Names-as-Host (hosted (with_reader s x.reader) s.reader.values x.out) line.old host.old line.new host.new result }
{
    let t = State {
        reader: x.reader,
        ..s
    };
    if let Out::Finished(v, n) = x.out {
        return put_answer(t, v, n, s.reader.values, host);
    }
    put_text(t, Said::by(x.out).text(), line, host)
}
