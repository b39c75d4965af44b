// What is shown of a line of the paper: its rows as they stood, and the stretches of places that stand alike.
ghost use Rattle.std.specs.Prelude.{◌≡◌, ◌≤◌, length};
ghost use Rattle.paper.specs.Show.{marked, size_from, inked, spaced, after_place};

use judgement::Line;

// A run of places that stand alike, with bare ones between them: from where to where.
#[derive(Clone, Copy)]
pub struct Stretch {
    pub from: usize,
    pub to: usize,
}

// Whether anything was struck on a line.
pub fn is_marked(line: &Line) -> bool
    ensures { result ≡ marked line.now }
{
    line.landed > 0 || line.strays > 0
}

// How many places a row has, up to its last character.
pub fn row_size(row: &[u8]) -> usize
    ensures within { result ≤ length row.now }
    ensures size { result ≡ size_from 0 0 row.now }
{
    row.iter().rposition(|x| *x != 0).map_or(0, |i| i + 1)
}

// A character, or a space where nothing was struck.
fn inked(x: u8) -> u8
    ensures { result ≡ inked x }
{
    if x == 0 { b' ' } else { x }
}

// Puts spaces into a row where nothing was struck.
pub fn space(row: &mut [u8])
    ensures { row.new ≡ spaced row.old }
{
    for x in row.iter_mut() {
        *x = inked(*x);
    }
}

// The stretch after a place that stands so, of those that stand as `v`. Another kind ends it, and a bare place does not.
// `v` stays a number: docs/PROMISES.md names `show`, whose answers hold for every number there, and a verdict would ask more.
pub fn after_place(s: Option<Stretch>, i: usize, stand: u8, v: u8) -> Option<Stretch>
    ensures { result ≡ after_place s i stand v }
{
    if stand == v {
        let from = s.map_or(i, |s| s.from);
        return Some(Stretch { from, to: i });
    }
    if stand == 0 { s } else { None }
}
