// A line of the paper: what is struck on it, how it stands in the end, and how many of each there are.
ghost use Rattle.std.specs.Prelude.{◌≡◌, ◌≤◌};
ghost use Rattle.judgement.specs.Verdict.{number_of};
ghost use Rattle.judgement.specs.Line.{bare, stand_after, seen, strike, final_at, final};
ghost use Rattle.judgement.specs.Line.{standing, standings, count_of, tally_of, plus_tally};

use crate::{Line, Spot, Strike, Tally, Verdict};
use std::ops::Add;

// The number of a verdict.
impl From<Verdict> for u8 {
    ghost from_gives = { λ v r. r ≡ number_of v };

    fn from(v: Verdict) -> u8 {
        v as u8
    }
}

// How a place stands that is struck.
fn stand_after(was: u8, v: Verdict) -> u8
    ensures { result ≡ stand_after was v }
{
    if was == 0 { u8::from(v) } else { 3 }
}

// What is seen of one character, or of more.
fn seen(was: u8, ink: u8, more: u8) -> u8
    ensures { result ≡ seen was ink more }
{
    if was == 0 { ink } else { more }
}

// Whether a character at a known place stands in the end.
fn final_at(stand: u8, strays: u64, v: Verdict) -> Verdict
    ensures { result ≡ final_at stand strays v }
{
    match stand {
        3 => Verdict::Over,
        _ if strays == 0 => v,
        _ => Verdict::Unknown,
    }
}

// How a place stands in the end, by number; 0 where nothing was struck.
fn standing(strays: u64, stand: u8) -> u8
    ensures { result ≡ standing strays stand }
{
    match stand {
        0 | 3 => stand,
        _ if strays == 0 => stand,
        _ => 4,
    }
}

// How many places stand so.
fn count_of(v: Verdict, stand: &[u8; 256]) -> u64
    ensures most { result ≤ 256 }
    ensures count { result ≡ count_of (number_of v) stand.now }
{
    let n = u8::from(v);
    stand.iter().filter(|x| **x == n).count() as u64
}

impl Line {
    // A line with nothing on it.
    pub fn bare() -> Line
        ensures { result ≡ bare }
    {
        Line {
            ink: [0; 256],
            stand: [0; 256],
            drift: [0; 256],
            landed: 0,
            strays: 0,
        }
    }

    // Strikes a code. What cannot be known is shown as `~`, and what is struck over as `*`.
    pub fn strike(&mut self, s: Strike)
        ensures { self.new ≡ strike self.old s }
    {
        let ink = s.sign.unwrap_or(b'~');
        match s.lands {
            None => {}
            Some(Spot::At(n)) => {
                let i = usize::from(n);
                let was = self.stand[i];
                self.ink[i] = seen(was, ink, b'*');
                self.stand[i] = stand_after(was, s.own);
                self.landed = self.landed.saturating_add(1);
            }
            Some(Spot::From(n)) => {
                let i = usize::from(n);
                self.drift[i] = seen(self.drift[i], ink, b'~');
                self.strays = self.strays.saturating_add(1);
            }
        }
    }

    // Whether what landed so stands in the end.
    pub fn last_verdict(&self, lands: Option<Spot>, v: Verdict) -> Verdict
        ensures { result ≡ final self.now lands v }
    {
        match lands {
            None => v,
            Some(Spot::At(n)) => final_at(self.stand[usize::from(n)], self.strays, v),
            Some(Spot::From(_)) => Verdict::Unknown,
        }
    }

    // How each place stands in the end.
    pub fn standings(&self) -> [u8; 256]
        ensures { result ≡ standings self.now.strays self.now.stand }
    {
        let strays = self.strays;
        self.stand.map(move |x| standing(strays, x))
    }

    // How many of each a line has. Each is counted once.
    pub fn tally(&self) -> Tally
        ensures { result ≡ tally_of self.now }
    {
        let kept = count_of(Verdict::Kept, &self.stand);
        let turned = count_of(Verdict::Turned, &self.stand);
        let unknown = count_of(Verdict::Unknown, &self.stand);
        let alone = kept + turned + unknown;
        let over = self.landed.saturating_sub(alone);
        if self.strays == 0 {
            Tally {
                kept,
                turned,
                over,
                unknown,
            }
        } else {
            Tally {
                over,
                unknown: alone.saturating_add(self.strays),
                ..Tally::default()
            }
        }
    }
}

// Two tallies in one. A count stays at the largest.
impl Add for Tally {
    type Output = Tally;

    ghost add_gives = { λ a b r. r ≡ plus_tally a b };

    fn add(self, b: Tally) -> Tally {
        Tally {
            kept: self.kept.saturating_add(b.kept),
            turned: self.turned.saturating_add(b.turned),
            over: self.over.saturating_add(b.over),
            unknown: self.unknown.saturating_add(b.unknown),
        }
    }
}
