// Where the bytes of a stream go in a mode.
ghost use Rattle.std.specs.Prelude.{◌≡◌};
ghost use Rattle.step.specs.Route.{route, is_printer};

use crate::{Route, Stream};
use settings::Connection;

// The route of a stream under a connection. The mode is the paper's number: an unsound state may hold any (`state_of` of spelling).
#[tactic(auto, unfolding(crate::specs::Route::route))]
pub fn route(c: Connection, t: Stream) -> Route
    ensures { result ≡ route c t }
{
    let mode = c.mode;
    match t {
        Stream::Host => match mode {
            1 => Route::ToPrinter,
            _ => Route::Dropped,
        },
        Stream::Line => match mode {
            1 => Route::ToHost,
            4 => Route::ToTu,
            _ => Route::Dropped,
        },
        Stream::Tu => match mode {
            4 => Route::ToPrinter,
            _ => Route::Dropped,
        },
    }
}

// Whether the bytes of a stream go to the printer.
pub fn prints(c: Connection, t: Stream) -> bool
    ensures { result ≡ is_printer (route c t) }
{
    route(c, t) == Route::ToPrinter
}
