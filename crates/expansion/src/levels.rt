// The levels that are open in a text.
ghost use Rattle.std.specs.Prelude.{◌≤◌};
ghost use Rattle.octets.specs.Believed.Numbers.{level_limit};

use octets::numbers::LEVEL_LIMIT;
use plain::places::Place;
use scanner::Class;

// 2 to the 63rd: fewer than 64 levels have bits below it, so that one more fits.
const BITS_OF_63: u64 = 9223372036854775808;

// How many levels are open, and which of them are typed addresses, the innermost in the lowest bit.
#[derive(Clone, Copy)]
pub(crate) struct Levels {
    pub(crate) many: usize,
    pub(crate) typed: u64,
    ghost low: { many ≤ level_limit },
}

impl Levels {
    ghost use Rattle.std.specs.Prelude.{◌≡◌, ◌-◌, []};
    ghost use Rattle.expansion.specs.Ties.Walk.{in_typed, with_list, with_typed, without_one, without_typed};
    ghost use Rattle.expansion.specs.Ties.Steps.{LevelsAre, Follows, InTypedIs, LevelsAfter};

    // No level.
    pub(crate) fn none() -> Self
        ensures { LevelsAre result [] }
    {
        Levels { many: 0, typed: 0 }
    }

    // Whether the innermost is a typed address.
    pub(crate) fn in_typed(self) -> bool
        ensures { InTypedIs self result }
    {
        self.typed % 2 == 1
    }

    // One more, of a list; there are never more than 64.
    fn with_list(self) -> Self
        ensures { Follows self result with_list }
    {
        if self.many == LEVEL_LIMIT {
            return self;
        }
        Levels {
            many: self.many + 1,
            typed: self.typed % BITS_OF_63 * 2,
        }
    }

    // The innermost is a typed address after all.
    fn with_typed(self) -> Self
        ensures { Follows self result with_typed }
    {
        if self.many == 0 {
            return self;
        }
        Levels {
            many: self.many,
            typed: self.typed / 2 * 2 + 1,
        }
    }

    // One less.
    fn without_one(self) -> Self
        ensures follows { Follows self result without_one }
        ensures less { result.many ≡ self.many - 1 }
    {
        if self.many == 0 {
            return self;
        }
        Levels {
            many: self.many - 1,
            typed: self.typed / 2,
        }
    }

    // Typed addresses end with what they hold.
    fn without_typed(self) -> Self
        ensures { Follows self result without_typed }
    {
        let mut left = self;
        while 0 < left.many && left.in_typed() {
            left = left.without_one();
        }
        left
    }

    // The levels after a symbol.
    pub(crate) fn after(self, class: Class, place: Place, colon: bool) -> Self
        ensures { LevelsAfter class place colon self result }
    {
        match class {
            Class::Atom => match plain::places::after_atom(place, colon) {
                Place::Typing => self.with_typed(),
                _ => self,
            },
            Class::Colon => match place {
                Place::Typing => self,
                _ => self.with_list(),
            },
            Class::LessThan => self.with_list(),
            Class::Comma => self.without_typed(),
            Class::GreaterThan | Class::Semicolon => self.without_typed().without_one(),
            _ => self,
        }
    }
}
