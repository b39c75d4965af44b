// The field that is being read.
ghost use Rattle.std.specs.Prelude.{◌≡◌, true, get_or, set};
ghost use Rattle.command.specs.Read.{digit, ex, field, finish, grown, in_field, is_digit, opened, typed};

use crate::{Form, Out, Reader, Stage, Step, Verb};

// The command's type, what stands in the field, which one it is, from 0, and all fields so far; 11 stands for too many, and none of
// those is kept.
#[derive(Clone, Copy)]
pub(crate) struct Field {
    pub(crate) verb: Verb,
    pub(crate) form: Form,
    pub(crate) last: u8,
    pub(crate) values: [u8; 11],
}

// The byte after a command's two letters.
pub(crate) fn typed(verb: Verb, b: u8) -> Step
    ensures { result ≡ typed verb b }
{
    let values = [0; 11];
    let first = Field {
        verb,
        form: Form::Empty,
        last: 0,
        values,
    };
    match b {
        b',' => first.step(),
        _ => Step::to(Stage::Discard),
    }
}

// A number with one digit more, reduced to a byte.
fn grown(n: u8, b: u8) -> u8
    requires { is_digit b ≡ true }
    ensures { result ≡ grown n b }
{
    n.wrapping_mul(10).wrapping_add(b - b'0')
}

impl Field {
    // The reader in this field.
    fn step(self) -> Step
        ensures { result ≡ in_field self.verb self.form self.last self.values }
    {
        let stage = Stage::Fields(self.verb, self.form, self.last);
        let values = self.values;
        let reader = Reader { stage, values };
        Step {
            reader,
            out: Out::Nothing,
        }
    }

    // What stands in the field; past the eleventh it is 0.
    fn value(self) -> u8
        ensures { result ≡ get_or self.values self.last 0 }
    {
        self.values
            .get(usize::from(self.last))
            .copied()
            .unwrap_or(0)
    }

    // The reader in this field, where this stands in it; past the eleventh it is not kept.
    fn holding(self, form: Form, x: u8) -> Step
        ensures { result ≡ in_field self.verb form self.last (set self.values self.last x) }
    {
        let mut values = self.values;
        let place = usize::from(self.last);
        // Not `get_mut`: a proof knows no element of what comes back from it.
        if place < values.len() {
            values[place] = x;
        }
        let next = Field {
            form,
            values,
            ..self
        };
        next.step()
    }

    // A comma in the fields.
    fn opened(self) -> Step
        ensures { result ≡ opened self.verb self.last self.values }
    {
        let last = self.last.saturating_add(1).min(11);
        let next = Field { last, ..self };
        next.holding(Form::Empty, 0)
    }

    // A digit in the field.
    fn digit(self, b: u8) -> Step
        requires { is_digit b ≡ true }
        ensures { result ≡ digit self.verb self.form self.last self.values b }
    {
        match self.form {
            Form::Empty | Form::Digits => self.holding(Form::Digits, grown(self.value(), b)),
            Form::Ex => Step::to(Stage::Discard),
        }
    }

    // An X in the field.
    fn ex(self) -> Step
        ensures { result ≡ ex self.verb self.form self.last self.values }
    {
        match self.form {
            Form::Empty => self.holding(Form::Ex, 255),
            Form::Digits | Form::Ex => Step::to(Stage::Discard),
        }
    }

    // A byte in the field.
    pub(crate) fn next(self, b: u8) -> Step
        ensures { result ≡ field self.verb self.form self.last self.values b }
    {
        match b {
            b',' => self.opened(),
            b'0'..=b'9' => self.digit(b),
            b'X' => self.ex(),
            _ => Step::to(Stage::Discard),
        }
    }

    // What a command makes when it ends in the field.
    pub(crate) fn finish(self) -> Out
        ensures { result ≡ finish self.verb self.last }
    {
        match self.last {
            0 => Out::Nothing,
            last => Out::Finished(self.verb, last.saturating_add(1).min(12)),
        }
    }
}
