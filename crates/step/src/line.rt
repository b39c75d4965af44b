// Line codes on their route: to the host or to the TU.
ghost use Rattle.std.specs.Prelude.{◌≡◌};
ghost use Rattle.settings.specs.Options.{reports};
ghost use Rattle.sender.specs.Reading.{read_case};
ghost use Rattle.step.specs.Names.{Line as Names-as-Line};
ghost use Rattle.step.specs.State.{with_reading};
ghost use Rattle.step.specs.Step.{is_read, read_as, line_step};
ghost use Rattle.step.specs.Byte.{Puts, Offers};

use crate::puts::put_one;
use crate::routes::route;
use crate::{NoRoom, Route, State, Stream, Taken};
use code::Kind;
use sender::readings::case_after;

// Whether a code of this kind gives the host a byte.
fn is_read(reports: bool, k: Kind) -> bool
    ensures { result ≡ is_read reports k }
{
    match k {
        Kind::Shift(_) => reports,
        Kind::Still | Kind::Space | Kind::Return | Kind::Char(_) => true,
    }
}

// The state after a line code of this kind read for the host.
fn read_on(s: State, k: Kind) -> State
    ensures { result ≡ with_reading s (read_case s.settings s.reading k) }
{
    let o = s.settings;
    State {
        reading: case_after(o.onspace(), o.onreturn(), s.reading, k),
        ..s
    }
}

// A line code of this kind read for the host, in the case before it.
fn put_read(s: State, k: Kind, c: u8, out: &mut [u8]) -> Option<usize>
    ensures { Puts (read_as (reports s.settings) s.reading k c) out.old out.new result }
{
    if is_read(s.settings.reports(), k) {
        put_one(code::row_at(s.reading, c), out)
    } else {
        Some(0)
    }
}

// One line code, with the parts of the host and TU buffers that are free.
pub fn put_line(s: State, c: u8, host: &mut [u8], tu: &mut [u8]) -> Result<Taken, NoRoom>
    ensures { Offers Names-as-Line (line_step s c) host.old tu.old host.new tu.new result }
{
    match route(s.connection, Stream::Line) {
        Route::ToHost => {
            let k = code::kind_of(c);
            let state = read_on(s, k);
            let first = put_read(s, k, c, host).ok_or(NoRoom { state })?;
            Ok(Taken {
                state,
                first,
                second: 0,
            })
        }
        Route::ToTu => {
            let second = put_one(c, tu).ok_or(NoRoom { state: s })?;
            Ok(Taken {
                state: s,
                first: 0,
                second,
            })
        }
        Route::Dropped | Route::ToPrinter => Ok(Taken::nothing(s)),
    }
}
