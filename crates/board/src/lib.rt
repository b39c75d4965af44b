// The box for the boards' C: the state as 128 bytes that the caller keeps, and one function for each call.
#![tactic(auto)]

ghost use Rattle.std.specs.Prelude.{◌≡◌};
ghost use Rattle.std.specs.Bool.{then_some};
ghost use Rattle.step.specs.State.{fresh_box};
ghost use Rattle.board.specs.Names.{Host as Names-as-Host, Line as Names-as-Line, Tu as Names-as-Tu};
ghost use Rattle.spelling.specs.Spelling.{spelt, state_of};
ghost use Rattle.board.specs.Calls.{Boarded, spells_sound};
ghost use Rattle.board.specs.Finds.{Finds};

use linebox::Answer;
use linebox::calls::{HostBytes, Input, LineCodes, TuCodes};
use spelling::load::{is_spelling, state_of};
use spelling::save::save;
use step::State;
use step::soundness::{fresh, is_sound};

// The state that a call starts from, where its bytes are the spelling of a sound one.
#[tactic(auto, unfolding(spelling::specs::Spelling::spells))]
fn open_state(b: &[u8; 128]) -> Option<State>
    ensures { result ≡ then_some (spells_sound b.now) (state_of b.now) }
{
    let state = state_of(b);
    (is_spelling(b, state) & is_sound(state)).then_some(state)
}

// A call of any stream: answer 3, and nothing changed, where the state's bytes are not the spelling of a sound one. Its parameters are
// those of the C interface (include/linebox.h).
fn call<T: Input>(
    state: &mut [u8; 128],
    input: &[u8],
    first: &mut [u8],
    second: &mut [u8],
    done: &mut [u64; 3],
) -> u32
    ensures { Boarded T.stream state.old input.now first.old second.old state.new first.new second.new done.new result }
{
    let Some(s) = open_state(state) else {
        *done = [0; 3];
        return u32::from(Answer::Unsound);
    };
    let c = T::take(s, input, first, second);
    save(c.state, state);
    *done = [c.taken as u64, c.first as u64, c.second as u64];
    u32::from(c.answer)
}

// A fresh box. Answers 0.
#[unsafe(no_mangle)]
pub extern "C" fn linebox_fresh(state: &mut [u8; 128]) -> u32
    ensures { (result ≡ 0) × (state.new ≡ spelt fresh_box) }
{
    save(fresh(), state);
    0
}

// Host bytes.
#[unsafe(no_mangle)]
pub extern "C" fn linebox_host(
    state: &mut [u8; 128],
    input: &[u8],
    line: &mut [u8],
    host: &mut [u8],
    done: &mut [u64; 3],
) -> u32
    ensures { Boarded Names-as-Host state.old input.now line.old host.old state.new line.new host.new done.new result }
{
    call::<HostBytes>(state, input, line, host, done)
}

// Codes from the line.
#[unsafe(no_mangle)]
pub extern "C" fn linebox_line(
    state: &mut [u8; 128],
    codes: &[u8],
    host: &mut [u8],
    tu: &mut [u8],
    done: &mut [u64; 3],
) -> u32
    ensures { Boarded Names-as-Line state.old codes.now host.old tu.old state.new host.new tu.new done.new result }
{
    call::<LineCodes>(state, codes, host, tu, done)
}

// Codes from the TU.
#[unsafe(no_mangle)]
pub extern "C" fn linebox_tu(
    state: &mut [u8; 128],
    codes: &[u8],
    line: &mut [u8],
    host: &mut [u8],
    done: &mut [u64; 3],
) -> u32
    ensures { Boarded Names-as-Tu state.old codes.now line.old host.old state.new line.new host.new done.new result }
{
    call::<TuCodes>(state, codes, line, host, done)
}

// Where the earliest complete message stands, from its hyphen to its last digit. Answers 1, or 0 and both places 0.
// A number and two places, not an Option: the C interface has it so.
#[unsafe(no_mangle)]
pub extern "C" fn linebox_find(bytes: &[u8], at: &mut [u64; 2]) -> u32
    ensures { Finds bytes.now at.new result }
{
    match message::locate(bytes) {
        Some(p) => {
            *at = [p.start as u64, p.len as u64];
            1
        }
        None => {
            *at = [0; 2];
            0
        }
    }
}
