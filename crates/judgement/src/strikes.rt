// A code by itself: what was meant, what was struck and where, and whether one is the other.
ghost use Rattle.std.specs.Prelude.{◌≡◌};
ghost use Rattle.judgement.specs.Watch.{shown_by};
ghost use Rattle.judgement.specs.Verdict.{own_char, own, strayed, lands_char, lands, sign_as, strike_of};
ghost use Rattle.judgement.specs.Page.{judgement};

use crate::{Judgement, Line, Spot, Strike, Verdict, Watch};
use code::{Case, Kind};

impl Spot {
    // The place, where perhaps nothing is struck.
    fn strayed(self) -> Option<Spot>
        ensures { result ≡ strayed self }
    {
        let (Spot::At(n) | Spot::From(n)) = self;
        Some(Spot::From(n))
    }
}

// The character of a code in a case, where it can be known.
pub fn sign_as(known: Option<Case>, k: Kind, c: u8) -> Option<u8>
    ensures { result ≡ sign_as known k c }
{
    match k {
        Kind::Char(_) => known.map(|case| code::row_at(case, c)),
        _ => Some(code::row_at(Case::Letters, c)),
    }
}

impl Watch {
    // Whether a character that depends on case was struck as it was meant: a figure is turned where the printer had fallen back,
    // and BELL strikes nothing.
    fn own_char(self, bell: bool) -> Verdict
        ensures { result ≡ own_char bell self.meant self.fell }
    {
        match self.meant {
            None => Verdict::Unknown,
            Some(Case::Letters) => Verdict::Kept,
            Some(Case::Figures) if self.fell => Verdict::Turned,
            Some(Case::Figures) if bell => Verdict::Nothing,
            Some(Case::Figures) => Verdict::Kept,
        }
    }

    // The same of a code of this kind; a space lands and strikes nothing.
    pub fn own(self, k: Kind) -> Verdict
        ensures { result ≡ own self k }
    {
        match k {
            Kind::Char(bell) => self.own_char(bell),
            _ => Verdict::Nothing,
        }
    }

    // Where a code that depends on case is struck.
    fn lands_char(self, bell: bool) -> Option<Spot>
        ensures { result ≡ lands_char bell (shown_by self.fell self.meant) self.spot }
    {
        match self.shown() {
            Some(Case::Figures) if bell => None,
            None if bell => self.spot.strayed(),
            _ => Some(self.spot),
        }
    }

    // Where a code of this kind is struck.
    pub fn lands(self, k: Kind) -> Option<Spot>
        ensures { result ≡ lands self k }
    {
        match k {
            Kind::Char(bell) => self.lands_char(bell),
            _ => None,
        }
    }

    // A code by itself.
    pub fn strike(self, c: u8) -> Strike
        ensures { result ≡ strike_of self c }
    {
        let k = code::kind_of(c);
        Strike {
            lands: self.lands(k),
            sign: sign_as(self.shown(), k, c),
            own: self.own(k),
        }
    }

    // The judgement of a code, by what was known before it and the line that it is on as that stands in the end.
    pub fn judgement(self, l: &Line, c: u8) -> Judgement
        ensures { result ≡ judgement self l.now c }
    {
        let s = self.strike(c);
        Judgement {
            meant: sign_as(self.meant, code::kind_of(c), c),
            struck: s.sign,
            verdict: l.last_verdict(s.lands, s.own),
        }
    }
}
