// Which settings, ways of calling and connections are sound.
ghost use Rattle.std.specs.Prelude.{◌≡◌, ◌∷◌, replicate};
ghost use Rattle.code.specs.Convert.{conversion};
ghost use Rattle.settings.specs.Table.{in_range, row, options, all_in, has_code, is_stand_in, sound_stand_in, sound_settings, all_signals, sound_calling, sound_link, sound_connection};

use crate::string::{is_ending, is_signal};
use crate::table::{is_between, is_link, is_power, row};
use crate::{Calling, Connection, Home, Settings};
use code::Conversion;

// Whether the value of an option is in its range. It is asked for here, and of `in_range` only where the id is no option: with the string
// in it that is too much to be compiled into each option's test.
fn option_sound(id: u8, value: u8) -> bool
    ensures { result ≡ in_range (row id).home (value ∷ replicate 8 0) }
{
    let home = row(id).home;
    if let Home::Value(_, low, high) = home {
        return is_between(low, high, value);
    }
    home.in_range([value, 0, 0, 0, 0, 0, 0, 0, 0])
}

// Whether a byte has a code.
fn has_code(b: u8) -> bool
    ensures { result ≡ has_code (conversion b) }
{
    !matches!(convert::convert(b), Conversion::Nothing)
}

// Whether a value is 0, or from 33 on with a code.
pub fn is_stand_in(b: u8) -> bool
    ensures { result ≡ is_stand_in b }
{
    b == 0 || b >= 33 && has_code(b)
}

impl Settings {
    // Whether each option's value is in its range.
    fn has_sound_values(self) -> bool
        ensures { result ≡ all_in options self.values }
    {
        [49, 50, 70, 71, 72, 74, 77]
            .iter()
            .zip(self.values.iter())
            .all(|(id, value)| option_sound(*id, *value))
    }

    // Whether option 77 is a sound stand-in.
    #[tactic(auto, unfolding(crate::specs::Table::sound_stand_in, crate::specs::Options::stand_in))]
    fn has_sound_stand_in(self) -> bool
        ensures { result ≡ sound_stand_in self }
    {
        is_stand_in(self.stand_in())
    }

    // Whether the settings are in the table's ranges.
    #[tactic(auto, using(crate::proofs::Strings::word_string), unfolding(crate::specs::Table::sound_settings))]
    pub(crate) fn is_sound(self) -> bool
        ensures { result ≡ sound_settings self }
    {
        self.has_sound_values() & (self.has_sound_stand_in() & is_ending(self.string))
    }
}

// Whether each of strings 91 to 95 is a word whose codes end at the first 0.
fn all_signals(ns: [u64; 5]) -> bool
    ensures { result ≡ all_signals ns }
{
    ns.iter().all(|n| is_signal(*n))
}

impl Calling {
    // Whether the motor power mode is in its range and the strings obey their rules.
    #[tactic(auto, unfolding(crate::specs::Table::sound_calling))]
    pub(crate) fn is_sound(self) -> bool
        ensures { result ≡ sound_calling self }
    {
        is_power(self.power) & all_signals(self.strings)
    }
}

impl Connection {
    // Whether port and speed are in a mode's range.
    fn is_within(self, home: Home) -> bool
        ensures { result ≡ sound_link home self.port self.speed }
    {
        match home {
            Home::Linked(last) => is_link(last, self.port, self.speed),
            Home::Unlinked => (self.port == 0) & (self.speed == 0),
            _ => false,
        }
    }

    // Whether the connection is in the table's ranges.
    #[tactic(auto, unfolding(crate::specs::Table::sound_connection))]
    pub(crate) fn is_sound(self) -> bool
        ensures { result ≡ sound_connection self }
    {
        self.is_within(row(self.mode).home)
    }
}
