//! Sets of the numbers 0 to 7: the variables of a quantifier, the arguments that must be given.
#![tactic(auto)]

ghost use Rattle.std.specs.Prelude.{◌≡◌, min, if◌then◌else◌, nat_lt};
ghost use Rattle.sets.specs.Sets.{members, none, ◌∪◌, ◌∩◌, ◌∖◌, single, below, empty, ◌⊆◌, meets};

/// A set of numbers from 0 to 7.
#[derive(Clone, Copy, PartialEq, Eq, Debug)]
pub struct SmallSet {
    mask: u8,
}

/// The set of the numbers whose bits are set in a byte, the lowest bit for 0.
impl From<u8> for SmallSet {
    ghost from_gives = { λ mask s. s.mask ≡ mask };

    fn from(mask: u8) -> SmallSet {
        SmallSet { mask }
    }
}

#[tactic(auto, using(crate::proofs::Masks::masks))]
impl SmallSet {
    /// The empty set.
    pub fn none() -> SmallSet
        ensures { members result ≡ none }
    {
        SmallSet { mask: 0 }
    }

    pub fn contains(self, number: u8) -> bool
        ensures { result ≡ members self number }
    {
        number < 8 && (self.mask >> number) % 2 == 1
    }

    pub fn is_empty(self) -> bool
        ensures { result ≡ empty (members self) }
    {
        self.mask == 0
    }

    pub fn union(self, other: SmallSet) -> SmallSet
        ensures { members result ≡ members self ∪ members other }
    {
        SmallSet {
            mask: self.mask | other.mask,
        }
    }

    pub fn intersection(self, other: SmallSet) -> SmallSet
        ensures { members result ≡ members self ∩ members other }
    {
        SmallSet {
            mask: self.mask & other.mask,
        }
    }

    pub fn minus(self, other: SmallSet) -> SmallSet
        ensures { members result ≡ members self ∖ members other }
    {
        SmallSet {
            mask: self.mask & !other.mask,
        }
    }

    /// Whether each number of this set is in the other.
    pub fn within(self, other: SmallSet) -> bool
        ensures { result ≡ members self ⊆ members other }
    {
        self.minus(other).is_empty()
    }

    /// Whether the sets have a number in common.
    pub fn meets(self, other: SmallSet) -> bool
        ensures { result ≡ meets (members self) (members other) }
    {
        !self.intersection(other).is_empty()
    }

    /// The set of this number alone; empty for a number over 7.
    pub fn single(number: u8) -> SmallSet
        ensures { members result ≡ (if nat_lt number 8 then single number else none) }
    {
        if number < 8 {
            SmallSet { mask: 1 << number }
        } else {
            SmallSet::none()
        }
    }

    /// The numbers below `end`, up to 7.
    pub fn below(end: u8) -> SmallSet
        ensures { members result ≡ below (min end 8) }
    {
        if end < 8 {
            SmallSet {
                mask: (1 << end) - 1,
            }
        } else {
            SmallSet { mask: 255 }
        }
    }
}
