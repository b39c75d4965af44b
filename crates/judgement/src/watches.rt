// What is known of the sender and of the printer after a code.
ghost use Rattle.std.specs.Prelude.{◌≡◌};
ghost use Rattle.judgement.specs.Watch.{shown_by, within, moved, blurred, spot_char, watch};

use crate::{Spot, Watch};
use code::{Case, Kind};

impl Spot {
    // The place, no further than the stop.
    pub fn within(self, stop: u8) -> Spot
        ensures { result ≡ within stop self }
    {
        match self {
            Spot::At(n) => Spot::At(n.min(stop)),
            Spot::From(n) if n < stop => self,
            Spot::From(_) => Spot::At(stop),
        }
    }

    // One place on.
    fn moved(self, stop: u8) -> Spot
        ensures { result ≡ moved stop self }
    {
        let on = match self {
            Spot::At(n) => Spot::At(n.saturating_add(1)),
            Spot::From(n) => Spot::From(n.saturating_add(1)),
        };
        on.within(stop)
    }

    // The place, where the carriage may have moved.
    fn blurred(self, stop: u8) -> Spot
        ensures { result ≡ blurred stop self }
    {
        let (Spot::At(n) | Spot::From(n)) = self;
        Spot::From(n).within(stop)
    }
}

impl Watch {
    // The printer's case.
    pub fn shown(self) -> Option<Case>
        ensures { result ≡ shown_by self.fell self.meant }
    {
        if self.fell {
            Some(Case::Letters)
        } else {
            self.meant
        }
    }

    // The place after a code that depends on case.
    fn spot_char(self, bell: bool) -> Spot
        ensures { result ≡ spot_char bell (shown_by self.fell self.meant) self.stop self.spot }
    {
        match self.shown() {
            Some(Case::Figures) if bell => self.spot,
            None if bell => self.spot.blurred(self.stop),
            _ => self.spot.moved(self.stop),
        }
    }

    // What is known after a code.
    pub fn after(self, c: u8) -> Watch
        ensures { result ≡ watch self c }
    {
        match code::kind_of(c) {
            Kind::Still => self,
            Kind::Space => Watch {
                fell: self.onspace || self.fell,
                spot: self.spot.moved(self.stop),
                ..self
            },
            Kind::Return => Watch {
                fell: self.onreturn || self.fell,
                spot: Spot::At(0),
                ..self
            },
            Kind::Shift(to) => Watch {
                meant: Some(to),
                fell: false,
                ..self
            },
            Kind::Char(bell) => Watch {
                spot: self.spot_char(bell),
                ..self
            },
        }
    }
}
