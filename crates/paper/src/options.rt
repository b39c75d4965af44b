// What the arguments say: the printer's stop and on what it unshifts, and what is known of it at the start.
ghost use Rattle.std.specs.Prelude.{◌≡◌, option_map};
ghost use Rattle.words.specs.Arguments.{setting_of};
ghost use Rattle.paper.specs.Options.{start, told};

use code::Case;
use judgement::{Spot, Start};
use words::{Setting, arguments};

// The start where no argument says otherwise.
pub fn start() -> Start
    ensures { result ≡ start }
{
    Start {
        case: None,
        spot: Spot::From(0),
        stop: 72,
        onspace: false,
        onreturn: false,
    }
}

// The start with what one argument more says.
fn told(o: Start, x: Setting) -> Start
    ensures { result ≡ told o x }
{
    match x {
        Setting::Stop(stop) => Start { stop, ..o },
        Setting::Place(n) => Start {
            spot: Spot::At(n),
            ..o
        },
        Setting::PlaceUnknown => Start {
            spot: Spot::From(0),
            ..o
        },
        Setting::Letters => Start {
            case: Some(Case::Letters),
            ..o
        },
        Setting::Figures => Start {
            case: Some(Case::Figures),
            ..o
        },
        Setting::CaseUnknown => Start { case: None, ..o },
        Setting::SpaceUnshifts => Start { onspace: true, ..o },
        Setting::SpaceKeeps => Start {
            onspace: false,
            ..o
        },
        Setting::ReturnUnshifts => Start {
            onreturn: true,
            ..o
        },
        Setting::ReturnKeeps => Start {
            onreturn: false,
            ..o
        },
    }
}

// The start with one argument more, where it is one.
pub fn with_argument(o: Start, s: &[u8]) -> Option<Start>
    ensures { result ≡ option_map (told o) (setting_of s.now) }
{
    arguments::setting(s).map(|x| told(o, x))
}
