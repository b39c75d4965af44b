// Parts of a state as bytes: what each part is spelt as and what bytes read as, by one trait, and a part at an offset.
ghost use Rattle.std.specs.Prelude.{◌≡◌, ◌+◌, ◌≤◌, ◌<◌, ◌^◌, ℕ, List, [], ◌∷◌, true, get_or, length, refl};
ghost use Rattle.word.specs.Word.{bytes_of, number_by};
ghost use Rattle.motor.specs.Motor.{sound_run};
ghost use Rattle.spelling.specs.Spelling.{case_byte, case_of, column_bytes, column_of, connection_bytes, form_byte, form_of, known_byte, known_of, part, puts, run_bytes, run_of, stage_bytes, stage_of, verb_byte, verb_of};
ghost use Rattle.word.proofs.Words.{bytes_back};
ghost use Rattle.spelling.specs.Back.{case_back, known_back, column_back, verb_back, form_back, stage_back, run_back, all};

use code::Case;
use command::{Form, Stage, Verb};
use motor::Run;
use settings::Connection;

// A part that is spelt as N bytes.
pub(crate) trait Spelled<const N: usize>: Copy {
    // Its bytes, what bytes read as, and what a value is known to be: no more than its type says, but where an impl says so.
    ghost bytes: { Self → List ℕ };

    ghost of: { List ℕ → Self };

    ghost formed: { Self → Type 0 } = { λ _. Unit {0} };

    // The part's bytes.
    fn to_bytes(self) -> [u8; N]
        ensures { result ≡ bytes self };

    // What so many bytes read as.
    fn from_bytes(b: &[u8]) -> Self
        requires { length b.now ≡ N }
        ensures { result ≡ of b.now };

    // What is spelt reads back.
    ghost back: { (x : Self) → formed x → of (bytes x) ≡ x };
}

// A part's bytes from an offset on.
#[tactic(auto, using(crate::proofs::Places::written))]
pub(crate) fn put<T: Spelled<N>, const N: usize>(bytes: &mut [u8; 128], at: usize, x: T)
    requires { at + N ≤ 128 }
    ensures { bytes.new ≡ puts bytes.old at (T.bytes x) }
{
    laws::copy(&x.to_bytes(), &mut bytes[at..at + N]);
}

// The part that the bytes from an offset on read as.
#[tactic(auto, using(crate::proofs::Places::read))]
pub(crate) fn get<T: Spelled<N>, const N: usize>(b: &[u8; 128], at: usize) -> T
    requires { at + N ≤ 128 }
    ensures { result ≡ T.of (part b.now at N) }
{
    T::from_bytes(&b[at..at + N])
}

// A case: 1 letters, 2 figures.
impl Spelled<1> for Case {
    ghost bytes = { λ c. case_byte c ∷ [] };

    ghost of = { λ b. case_of (get_or b 0 0) };

    ghost back = { λ c _. case_back c };

    fn to_bytes(self) -> [u8; 1] {
        match self {
            Case::Letters => [1],
            Case::Figures => [2],
        }
    }

    fn from_bytes(b: &[u8]) -> Case {
        match b[0] {
            1 => Case::Letters,
            _ => Case::Figures,
        }
    }
}

// A command's type: 0 other, 1 TW, 2 TR.
impl Spelled<1> for Verb {
    ghost bytes = { λ v. verb_byte v ∷ [] };

    ghost of = { λ b. verb_of (get_or b 0 0) };

    ghost back = { λ v _. verb_back v };

    fn to_bytes(self) -> [u8; 1] {
        match self {
            Verb::Other => [0],
            Verb::Write => [1],
            Verb::Read => [2],
        }
    }

    fn from_bytes(b: &[u8]) -> Verb {
        match b[0] {
            1 => Verb::Write,
            2 => Verb::Read,
            _ => Verb::Other,
        }
    }
}

// What stands in a field: 0 nothing yet, 1 digits, 2 X. No twin of a command's type: each is a table of its own numbers.
impl Spelled<1> for Form {
    ghost bytes = { λ f. form_byte f ∷ [] };

    ghost of = { λ b. form_of (get_or b 0 0) };

    ghost back = { λ f _. form_back f };

    fn to_bytes(self) -> [u8; 1] {
        match self {
            Form::Empty => [0],
            Form::Digits => [1],
            Form::Ex => [2],
        }
    }

    fn from_bytes(b: &[u8]) -> Form {
        match b[0] {
            1 => Form::Digits,
            2 => Form::Ex,
            _ => Form::Empty,
        }
    }
}

// The case that the record has, or the shift that the last item was: 0 unknown, or any other item or none.
impl Spelled<1> for Option<Case> {
    ghost bytes = { λ k. known_byte k ∷ [] };

    ghost of = { λ b. known_of (get_or b 0 0) };

    ghost back = { λ k _. known_back k };

    fn to_bytes(self) -> [u8; 1] {
        match self {
            None => [0],
            Some(case) => case.to_bytes(),
        }
    }

    fn from_bytes(b: &[u8]) -> Option<Case> {
        match b[0] {
            0 => None,
            _ => Some(Case::from_bytes(b)),
        }
    }
}

// Whether the column is known, and the column.
impl Spelled<2> for Option<u8> {
    ghost bytes = { column_bytes };

    ghost of = { λ b. column_of (get_or b 0 0) (get_or b 1 0) };

    ghost back = { λ c _. column_back c };

    fn to_bytes(self) -> [u8; 2] {
        match self {
            None => [0, 0],
            Some(n) => [1, n],
        }
    }

    fn from_bytes(b: &[u8]) -> Option<u8> {
        match b[0] {
            1 => Some(b[1]),
            _ => None,
        }
    }
}

// The command reader's stage, and what it knows of the command.
impl Spelled<4> for Stage {
    ghost bytes = { stage_bytes };

    ghost of = { λ b. stage_of (get_or b 0 0) (get_or b 1 0) (get_or b 2 0) (get_or b 3 0) };

    ghost back = { λ s _. stage_back s };

    fn to_bytes(self) -> [u8; 4] {
        match self {
            Stage::Text => [0, 0, 0, 0],
            Stage::Swallow => [1, 0, 0, 0],
            Stage::Held => [2, 0, 0, 0],
            Stage::Begun => [3, 0, 0, 0],
            Stage::Lettered(small, t) => [4, u8::from(small), u8::from(t), 0],
            Stage::Typed(v) => {
                let [v]: [u8; 1] = v.to_bytes();
                [5, v, 0, 0]
            }
            Stage::Fields(v, f, last) => {
                let [v]: [u8; 1] = v.to_bytes();
                let [f]: [u8; 1] = f.to_bytes();
                [6, v, f, last]
            }
            Stage::Discard => [7, 0, 0, 0],
        }
    }

    fn from_bytes(b: &[u8]) -> Stage {
        match b[0] {
            0 => Stage::Text,
            1 => Stage::Swallow,
            2 => Stage::Held,
            3 => Stage::Begun,
            4 => Stage::Lettered(b[1] == 1, b[2] == 1),
            5 => Stage::Typed(Verb::from_bytes(&b[1..2])),
            6 => Stage::Fields(Verb::from_bytes(&b[1..2]), Form::from_bytes(&b[2..3]), b[3]),
            _ => Stage::Discard,
        }
    }
}

// Whether the motor runs, and one more than the codes since the first string 93 that counts, as a byte.
impl Spelled<2> for Run {
    ghost bytes = { run_bytes };

    ghost of = { λ b. run_of (get_or b 0 0) (get_or b 1 0) };

    ghost formed = { λ r. sound_run r ≡ true };

    ghost back = { run_back };

    fn to_bytes(self) -> [u8; 2] {
        match self {
            Run::Off => [0, 0],
            Run::Called(n) => [0, n.wrapping_add(1)],
            Run::On => [1, 0],
        }
    }

    fn from_bytes(b: &[u8]) -> Run {
        match (b[0], b[1]) {
            (1, _) => Run::On,
            (_, 0) => Run::Off,
            (_, n) => Run::Called(n - 1),
        }
    }
}

// A string, or the codes heard: the number's eight bytes, the lowest first.
impl Spelled<8> for u64 {
    ghost bytes = { bytes_of };

    ghost of = { number_by 256 };

    ghost formed = { λ n. n < 2 ^ 64 };

    ghost back = { bytes_back };

    fn to_bytes(self) -> [u8; 8] {
        self.to_le_bytes()
    }

    fn from_bytes(b: &[u8]) -> u64 {
        u64::from_le_bytes(b.try_into().unwrap())
    }
}

// Fields of a command, a byte each.
impl<const N: usize> Spelled<N> for [u8; N] {
    ghost bytes = { λ xs. part xs 0 N };

    ghost of = { λ b. b };

    ghost formed = { λ xs. length xs ≡ N };

    ghost back = { λ xs. all xs N };

    #[tactic(auto, using(crate::specs::Back::all))]
    fn to_bytes(self) -> [u8; N] {
        self
    }

    fn from_bytes(b: &[u8]) -> [u8; N] {
        b.try_into().unwrap()
    }
}

// The connection's mode, port and speed.
impl Spelled<3> for Connection {
    ghost bytes = { connection_bytes };

    ghost of = { λ b. record { mode = get_or b 0 0; port = get_or b 1 0; speed = get_or b 2 0 } };

    ghost back = { λ _ _. refl };

    fn to_bytes(self) -> [u8; 3] {
        [self.mode, self.port, self.speed]
    }

    fn from_bytes(b: &[u8]) -> Connection {
        Connection {
            mode: b[0],
            port: b[1],
            speed: b[2],
        }
    }
}
