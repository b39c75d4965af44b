// The text of a log sheet, which is all that "sheet" stands for: codes in decimal, each after a space.
#![tactic(auto)]

ghost use Rattle.sheet.specs.Words.{Spells};

// Numbers at the front of a buffer, each in decimal after a space, and how many bytes they are; nothing, and the buffer as it was,
// where it has less than four places for each.
#[tactic(auto, using(message::proofs::Sizes::marked_few))]
pub fn spell(ns: &[u8], out: &mut [u8]) -> Option<usize>
    ensures { Spells ns.now out.old out.new result }
{
    if out.len() / 4 < ns.len() {
        return None;
    }
    Some(message::put_numbers(b' ', ns, out, 0))
}
