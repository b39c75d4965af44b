// One byte's output into the free part of a lent buffer.
ghost use Rattle.std.specs.Prelude.{◌≡◌, [], ◌∷◌};
ghost use Rattle.step.specs.Byte.{Puts, nothing};

use crate::{State, Taken};

// One byte at the front of a buffer, if it has a place: how many places were written.
pub fn put_one(b: u8, out: &mut [u8]) -> Option<usize>
    ensures { Puts (b ∷ []) out.old out.new result }
{
    *out.first_mut()? = b;
    Some(1)
}

impl Taken {
    // No output.
    pub(crate) fn nothing(state: State) -> Taken
        ensures { result ≡ nothing state }
    {
        Taken {
            state,
            first: 0,
            second: 0,
        }
    }
}
