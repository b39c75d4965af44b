// The calls of the box under the names of include/linebox.h, for a static library: each is the call of that name of `board`.
// They stand here a second time for the C interface: a crate is a library or a static library, and `onboard` rests on `board` as a library.
#![tactic(auto)]

ghost use Rattle.std.specs.Prelude.{◌≡◌};
ghost use Rattle.step.specs.State.{fresh_box};
ghost use Rattle.board.specs.Names.{Host as Names-as-Host, Line as Names-as-Line, Tu as Names-as-Tu};
ghost use Rattle.spelling.specs.Spelling.{spelt};
ghost use Rattle.board.specs.Calls.{Boarded};
ghost use Rattle.board.specs.Finds.{Finds};

// A fresh box. Answers 0.
#[unsafe(no_mangle)]
pub extern "C" fn linebox_fresh(state: &mut [u8; 128]) -> u32
    ensures { (result ≡ 0) × (state.new ≡ spelt fresh_box) }
{
    board::linebox_fresh(state)
}

// Host bytes.
#[unsafe(no_mangle)]
pub extern "C" fn linebox_host(
    state: &mut [u8; 128],
    input: &[u8],
    line: &mut [u8],
    host: &mut [u8],
    done: &mut [u64; 3],
) -> u32
    ensures { Boarded Names-as-Host state.old input.now line.old host.old state.new line.new host.new done.new result }
{
    board::linebox_host(state, input, line, host, done)
}

// Codes from the line.
#[unsafe(no_mangle)]
pub extern "C" fn linebox_line(
    state: &mut [u8; 128],
    codes: &[u8],
    host: &mut [u8],
    tu: &mut [u8],
    done: &mut [u64; 3],
) -> u32
    ensures { Boarded Names-as-Line state.old codes.now host.old tu.old state.new host.new tu.new done.new result }
{
    board::linebox_line(state, codes, host, tu, done)
}

// Codes from the TU.
#[unsafe(no_mangle)]
pub extern "C" fn linebox_tu(
    state: &mut [u8; 128],
    codes: &[u8],
    line: &mut [u8],
    host: &mut [u8],
    done: &mut [u64; 3],
) -> u32
    ensures { Boarded Names-as-Tu state.old codes.now line.old host.old state.new line.new host.new done.new result }
{
    board::linebox_tu(state, codes, line, host, done)
}

// Where the earliest complete message stands, from its hyphen to its last digit. Answers 1, or 0 and both places 0.
#[unsafe(no_mangle)]
pub extern "C" fn linebox_find(bytes: &[u8], at: &mut [u64; 2]) -> u32
    ensures { Finds bytes.now at.new result }
{
    board::linebox_find(bytes, at)
}
