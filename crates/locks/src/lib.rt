// Sets of locks for the race checker. A set is one 64-bit word; what each function means is said by who is in the
// set (specs/Sets.antt). Nothing here knows of bytes, procedures or locations.
#![tactic(auto, unfolding(crate::specs::Sets::is_in), using(crate::proofs::Words::words))]

ghost use Rattle.std.specs.Prelude.{◌≡◌, if◌then◌else◌, None, Some};
ghost use Rattle.locks.specs.Sets.{is_in, none, taken, released, set_of_access, is_empty, count, lowest, apart, within};

// Locks have the numbers below this one.
pub const LOCKS: u32 = 63;

// The number of the read mark.
pub const READ_MARK: u32 = 63;

// The set of locks held at one moment, in one word, as 01 asks for it.
#[derive(Clone, Copy, Debug, PartialEq, Eq)]
pub struct Held {
    pub bits: u64,
}

impl Held {
    // No lock is held.
    pub fn none() -> Self
        ensures { result.bits ≡ none }
    {
        Self { bits: 0 }
    }

    // The set with a lock in it. A number that is no lock's changes nothing.
    pub fn take(self, lock: u32) -> Self
        ensures { result.bits ≡ taken lock self.bits }
    {
        if lock < LOCKS {
            Self {
                bits: self.bits | 1u64 << lock,
            }
        } else {
            self
        }
    }

    // The set with a lock out of it. A number that is no lock's changes nothing.
    pub fn release(self, lock: u32) -> Self
        ensures { result.bits ≡ released lock self.bits }
    {
        if lock < LOCKS {
            Self {
                bits: self.bits & !(1u64 << lock),
            }
        } else {
            self
        }
    }

    // Is this lock held?
    pub fn has(self, lock: u32) -> bool
        ensures { result ≡ is_in lock self.bits }
    {
        is_in(lock, self.bits)
    }

    // Is no lock held?
    pub fn is_empty(self) -> bool
        ensures { result ≡ is_empty self.bits }
    {
        self.bits == 0
    }

    // How many locks are held.
    pub fn count(self) -> u32
        ensures { result ≡ count self.bits }
    {
        self.bits.count_ones()
    }

    // The lowest lock held, if one is.
    pub fn lowest(self) -> Option<u32>
        ensures { result ≡ (if is_empty self.bits then None else Some (lowest self.bits)) }
    {
        if self.is_empty() {
            None
        } else {
            Some(self.bits.trailing_zeros())
        }
    }

    // The lock set of an access that is made with these locks held.
    pub fn set_of_access(self, reads: bool) -> u64
        ensures { result ≡ set_of_access reads self.bits }
    {
        if reads {
            self.bits | 1u64 << READ_MARK
        } else {
            self.bits
        }
    }
}

// Is this number, a lock's or the mark's, in a set?
pub fn is_in(number: u32, set: u64) -> bool
    ensures { result ≡ is_in number set }
{
    number < 64 && (set >> number) % 2 == 1
}

// Do two sets have nothing in common?
pub fn apart(a: u64, b: u64) -> bool
    ensures { result ≡ apart a b }
{
    a & b == 0
}

// Does the first set lie within the second?
pub fn within(a: u64, b: u64) -> bool
    ensures { result ≡ within a b }
{
    a & b == a
}
