// The box: three calls, four answers.
#![tactic(auto)]

ghost use Rattle.std.specs.Prelude.{◌≡◌};
ghost use Rattle.linebox.specs.Call.{number_of};

pub mod calls;
mod runs;

use step::State;

// How a call ends: all bytes taken, no room for the next byte's output, a next byte that is no code, or a state that is not
// sound. No Result: each of the four comes with its counts and its state (`Called`), and the paper numbers all four (`number_of`).
#[derive(Clone, Copy, PartialEq, Eq)]
pub enum Answer {
    All,
    NoRoom,
    NoCode,
    Unsound,
}

// The paper's number of an answer.
impl From<Answer> for u32 {
    ghost from_gives = { λ a n. n ≡ number_of a };

    fn from(a: Answer) -> u32 {
        match a {
            Answer::All => 0,
            Answer::NoRoom => 1,
            Answer::NoCode => 2,
            Answer::Unsound => 3,
        }
    }
}

// A run of bytes that wrote to the first buffer alone: the state after it, how many bytes they were, and how many places were written.
#[derive(Clone, Copy)]
pub struct Ran {
    pub state: State,
    pub taken: usize,
    pub count: usize,
}

// What a call gives: its answer, how many bytes it took, how many it wrote to each lent buffer in the order lent, and the state.
#[derive(Clone, Copy)]
pub struct Called {
    pub answer: Answer,
    pub taken: usize,
    pub first: usize,
    pub second: usize,
    pub state: State,
}
