// Finished commands: what they store, and their answers to the host.
ghost use Rattle.std.specs.Prelude.{ℕ, List};
ghost use Rattle.settings.specs.Command.{commanded};
ghost use Rattle.settings.specs.Laws.{Sound};
ghost use Rattle.step.specs.Step.{obeys};
ghost use Rattle.step.specs.Names.{Host as Names-as-Host};
ghost use Rattle.step.specs.Byte.{Offers};

use crate::{NoRoom, State, Taken};
use command::Verb;

// A finished command obeyed, and its answer at the front of the host buffer, if all of it fits.
pub fn put_answer(
    s: State,
    v: Verb,
    count: u8,
    fields: [u8; 11],
    out: &mut [u8],
) -> Result<Taken, NoRoom>
    requires { Sound s.settings s.calling s.connection }
    ensures { (line : List ℕ) → Offers Names-as-Host (obeys s (commanded s.settings s.calling s.connection v count fields)) line out.old line out.new result }
{
    let o = s.setup().run(v, count, fields);
    let state = s.with_stored(o.stored);
    let second = message::make(o.numbers.as_slice(), out).ok_or(NoRoom { state })?;
    Ok(Taken {
        state,
        first: 0,
        second,
    })
}
