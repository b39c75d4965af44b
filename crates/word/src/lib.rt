// A string in one word: eight codes of five bits, the first one lowest, and the upper 24 of 64 bits zero.
#![tactic(auto)]

ghost use Rattle.std.specs.Prelude.{◌≡◌, ◌+◌, ◌*◌, ◌<◌};
ghost use Rattle.word.specs.Word.{unpacked, packed, is_word};

use std::array;

// The word of a code and, above it, the others.
fn beneath(rest: u64, c: u8) -> u64
    requires { rest < 288230376151711744 }
    ensures { (result ≡ c + 32 * rest) × (result < 256 + 32 * rest) }
{
    u64::from(c) + 32 * rest
}

// The word of eight codes.
pub fn pack(cs: [u8; 8]) -> u64
    ensures { result ≡ packed cs }
{
    let mut n = 0;
    for c in cs.iter().rev() {
        n = beneath(n, *c);
    }
    n
}

// The eight codes of a word.
// Not by a shift that a variable counts: for one of 64 bits a board would have to supply a function that include/linebox.h does not name.
pub fn unpack(n: u64) -> [u8; 8]
    ensures { result ≡ unpacked n }
{
    let mut rest = n;
    array::from_fn(|_| {
        let c = (rest % 32) as u8;
        rest /= 32;
        c
    })
}

// Whether the upper bits are zero.
pub fn is_word(n: u64) -> bool
    ensures { result ≡ is_word n }
{
    n < 1099511627776
}
