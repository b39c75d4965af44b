// Laws about lists, buffers and tables that every layer uses; and the copying of bytes.
#![tactic(auto)]

ghost use Rattle.std.specs.Prelude.{◌≡◌, length};

// Copies bytes over as many others. The library's `copy_from_slice` promises the same, but looks by their addresses whether the two overlap:
// no number is to be made of a pointer in what the boards link (docs/TARGETS.md).
pub fn copy(from: &[u8], to: &mut [u8])
    requires { length to.old ≡ length from.now }
    ensures len { length to.new ≡ length to.old }
    ensures after { to.new ≡ from.now }
{
    for (i, b) in from.iter().enumerate() {
        to[i] = *b;
    }
}
