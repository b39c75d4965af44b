// The rules of strings 90 to 95.
ghost use Rattle.std.specs.Prelude.{◌≡◌, ◌&&◌, ◌<◌};
ghost use Rattle.word.specs.Word.{unpacked, is_word};
ghost use Rattle.settings.specs.Table.{all_codes, padded, early, opens, sound_string, sound_signal, is_signal};

// Whether all are codes.
fn all_codes(s: [u8; 8]) -> bool
    ensures { result ≡ all_codes s }
{
    s.iter().all(|c| *c < 32)
}

// Whether all after the first 0 are 0: nothing is left of the word there.
// It is a loop over the number, as `opens` is, for the reason beside that.
fn padded(n: u64) -> bool
    requires { n < 1099511627776 }
    ensures { result ≡ padded (unpacked n) }
{
    let mut rest = n;
    while rest % 32 != 0 {
        rest = rest / 32;
    }
    rest == 0
}

// Whether a code may stand before the first 8.
fn early(c: u8) -> bool
    ensures { result ≡ early c }
{
    matches!(c, 2 | 27 | 31)
}

// Whether there is an 8, and before the first only what may stand there.
// Its loop is that of `padded` but for the test: one over a closure has to ask that the closure is false of 0, and is no plainer. Over the
// codes in an array there is no loop, but the box was 570 bytes larger (docs/DECISIONS.md).
fn opens(n: u64) -> bool
    requires { n < 1099511627776 }
    ensures { result ≡ opens (unpacked n) }
{
    let mut rest = n;
    while early((rest % 32) as u8) {
        rest = rest / 32;
    }
    rest % 32 == 8
}

// Whether a number is a word whose codes end at the first 0.
#[tactic(auto, unfolding(crate::specs::Table::is_signal))]
pub fn is_signal(n: u64) -> bool
    ensures { result ≡ is_signal n }
{
    word::is_word(n) && padded(n)
}

// Whether a number is a word whose codes end at the first 0 and open as a line ending does.
#[tactic(auto, unfolding(crate::specs::Table::is_signal))]
pub fn is_ending(n: u64) -> bool
    ensures { result ≡ (is_word n && (padded (unpacked n) && opens (unpacked n))) }
{
    is_signal(n) && opens(n)
}

// Whether eight numbers are codes that obey the rules of string 90.
#[tactic(auto, using(crate::proofs::Strings::string_word), unfolding(crate::specs::Table::sound_string))]
pub fn sound_string(s: [u8; 8]) -> bool
    ensures { result ≡ sound_string s }
{
    all_codes(s) && is_ending(word::pack(s))
}

// Whether eight numbers are codes that obey the rules of strings 91 to 95.
#[tactic(auto, using(crate::proofs::Strings::signal_word), unfolding(crate::specs::Table::sound_signal))]
pub fn sound_signal(s: [u8; 8]) -> bool
    ensures { result ≡ sound_signal s }
{
    all_codes(s) && is_signal(word::pack(s))
}
