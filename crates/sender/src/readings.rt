// The case that codes are read in.
ghost use Rattle.std.specs.Prelude.{◌≡◌};
ghost use Rattle.sender.specs.Reading.{case_after};

use code::{Case, Kind};

// The case that the next code is read in, as a space and a return unshift or not.
pub fn case_after(onspace: bool, onreturn: bool, case: Case, k: Kind) -> Case
    ensures { result ≡ case_after onspace onreturn case k }
{
    match k {
        Kind::Space if onspace => Case::Letters,
        Kind::Return if onreturn => Case::Letters,
        Kind::Shift(to) => to,
        Kind::Still | Kind::Space | Kind::Return | Kind::Char(_) => case,
    }
}
