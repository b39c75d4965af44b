// The settings by name. Each is one line that says where it stands: one getter by place would lose the names.
ghost use Rattle.std.specs.Prelude.{◌≡◌};
ghost use Rattle.settings.specs.Options.{endings, limit, onspace, onreturn, filter, reports, stand_in};

use crate::Settings;

impl Settings {
    // Option 49: line endings.
    #[tactic(auto, unfolding(crate::specs::Options::endings))]
    pub fn endings(self) -> bool
        ensures { result ≡ endings self }
    {
        self.values[0] == 1
    }

    // Option 50: their limit.
    #[tactic(auto, unfolding(crate::specs::Options::limit))]
    pub fn limit(self) -> u8
        ensures { result ≡ limit self }
    {
        self.values[1]
    }

    // Option 70: unshift on space.
    #[tactic(auto, unfolding(crate::specs::Options::onspace))]
    pub fn onspace(self) -> bool
        ensures { result ≡ onspace self }
    {
        self.values[2] == 1
    }

    // Option 71: unshift on return.
    #[tactic(auto, unfolding(crate::specs::Options::onreturn))]
    pub fn onreturn(self) -> bool
        ensures { result ≡ onreturn self }
    {
        self.values[3] == 1
    }

    // Option 72: the filter of shifts.
    #[tactic(auto, unfolding(crate::specs::Options::filter))]
    pub fn filter(self) -> bool
        ensures { result ≡ filter self }
    {
        self.values[4] == 1
    }

    // Option 74: SI/SO reports.
    #[tactic(auto, unfolding(crate::specs::Options::reports))]
    pub fn reports(self) -> bool
        ensures { result ≡ reports self }
    {
        self.values[5] == 1
    }

    // Option 77: the stand-in for text bytes without a code, 0 where there is none: so the paper has it, and `stand_in` says so.
    #[tactic(auto, unfolding(crate::specs::Options::stand_in))]
    pub fn stand_in(self) -> u8
        ensures { result ≡ stand_in self }
    {
        self.values[6]
    }

    // String 90, the line ending, as a word.
    pub fn ending_word(self) -> u64
        ensures { result ≡ self.string }
    {
        self.string
    }
}
