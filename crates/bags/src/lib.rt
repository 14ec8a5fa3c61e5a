// Which procedures are in series and which in parallel with what runs now. Nothing here knows of locks, locations or bytes.
//
// The bags of 002 are runs of procedure numbers, so two lent pieces hold them as a pair of numbers for each open procedure: `Runs`.
// `begin` sets them up; `spawn`, `sync` and `returns` bring them forward by one event; the others only read. What only reads can also
// be asked of `Asked`, for which the pieces are lent with `&`. `ask` has a module of its own.
#![tactic(auto)]

ghost use Rattle.std.specs.Prelude.{◌≡◌, cond, List, ℕ, ◌≤◌, ◌<◌, ◌+◌, ◌-◌, length, set, get_or, ltb};
ghost use Rattle.bags.specs.Parallel.{spawn, return, sync};
ghost use Rattle.bags.specs.Runs.{piece_size, bags_in, Room};
ghost use Rattle.bags.specs.Lent.{InRoom, SameLoans, AskedInRoom};
ghost use Rattle.bags.specs.Steps.{runner, Begins, Carries, most_begun, spawned, code_of, pairs_after, pushed, AfterSpawn};

pub mod ask;

use ask::{Asked, Pairs, ProcedureNumber, Runs};

// At most this many procedures may begin, main counted.
const MOST_BEGUN: u32 = 4096;

// A spawn is refused: 4,096 procedures have begun.
#[derive(Clone, Copy, Debug, PartialEq, Eq)]
pub struct Full;

impl Runs<'_> {
    // Main begins. What the pieces held before does not matter.
    pub fn begin(&mut self)
        requires piece_size_in_bounds { piece_size ≤ length self.old.starts.now }
        requires piece_size_in_bounds_2 { piece_size ≤ length self.old.joins.now }
        ensures pairs { self.new.pairs ≡ record { count = 1; begun = 1; start = 0; join = 1 } }
        ensures starts { self.new.starts.now ≡ set self.old.starts.now 0 0 }
        ensures joins { self.new.joins.now ≡ set self.old.joins.now 0 1 }
        ensures bags { Begins self.old.starts.now self.old.joins.now self.new.starts.now self.new.joins.now self.new.pairs }
        ensures lent { SameLoans self.old self.new }
    {
        self.starts[0] = 0;
        self.joins[0] = 1;
        self.pairs = Pairs {
            count: 1,
            begun: 1,
            start: 0,
            join: 1,
        };
    }

    // The running procedure spawns the next one, which runs from then on.
    #[tactic(auto, unfolding(crate::specs::Steps::spawned, crate::specs::Steps::pairs_after, crate::specs::Steps::pushed), using(crate::proofs::Pieces::room_left))]
    pub fn spawn(&mut self) -> Result<(), Full>
        requires { InRoom self.old }
        ensures result { result ≡ spawned self.old.pairs }
        ensures code { code_of result ≡ cond (ltb self.old.pairs.begun most_begun) 0 11 }
        ensures pairs { self.new.pairs ≡ pairs_after self.old.pairs }
        ensures starts { self.new.starts.now ≡ pushed self.old.pairs self.old.pairs.begun self.old.starts.now }
        ensures joins { self.new.joins.now ≡ pushed self.old.pairs (self.old.pairs.begun + 1) self.old.joins.now }
        ensures bags { AfterSpawn self.old.starts.now self.old.joins.now self.old.pairs
            self.new.starts.now self.new.joins.now self.new.pairs result }
        ensures lent { SameLoans self.old self.new }
    {
        let Pairs { count, begun, .. } = self.pairs;
        if MOST_BEGUN <= begun {
            return Err(Full);
        }
        self.starts[count] = begun;
        self.joins[count] = begun + 1;
        self.pairs = Pairs {
            count: count + 1,
            begun: begun + 1,
            start: begun,
            join: begun + 1,
        };
        Ok(())
    }

    // The running procedure syncs. The starts play no part.
    pub fn sync(&mut self)
        requires count_nonzero { 0 < self.old.pairs.count }
        requires count_in_bounds { self.old.pairs.count ≤ length self.old.joins.now }
        ensures pairs { self.new.pairs ≡ record {
          count = self.old.pairs.count;
          begun = self.old.pairs.begun;
          start = self.old.pairs.start;
          join = self.old.pairs.begun;
        } }
        ensures starts { self.new.starts.now ≡ self.old.starts.now }
        ensures joins { self.new.joins.now ≡ set self.old.joins.now (self.old.pairs.count - 1) self.old.pairs.begun }
        ensures bags { (starts : List ℕ) → Room starts self.old.joins.now self.old.pairs
            → Carries sync starts self.old.joins.now self.old.pairs starts self.new.joins.now self.new.pairs }
        ensures lent { SameLoans self.old self.new }
    {
        let begun = self.pairs.begun;
        let at = self.pairs.count - 1;
        self.joins[at] = begun;
        self.pairs.join = begun;
    }

    // The running procedure returns, and the one that spawned it runs again: its pair is at hand again.
    pub fn returns(&mut self)
        requires count_nonzero { 0 < self.old.pairs.count }
        requires count_in_bounds { self.old.pairs.count ≤ length self.old.starts.now }
        requires count_in_bounds_2 { self.old.pairs.count ≤ length self.old.joins.now }
        ensures pairs { self.new.pairs ≡ record {
          count = self.old.pairs.count - 1;
          begun = self.old.pairs.begun;
          start = get_or self.old.starts.now (self.old.pairs.count - 2) 0;
          join = get_or self.old.joins.now (self.old.pairs.count - 2) 0;
        } }
        ensures starts { self.new.starts.now ≡ self.old.starts.now }
        ensures joins { self.new.joins.now ≡ self.old.joins.now }
        ensures bags { InRoom self.old
            → Carries return self.old.starts.now self.old.joins.now self.old.pairs
            self.new.starts.now self.new.joins.now self.new.pairs }
        ensures lent { SameLoans self.old self.new }
    {
        self.pairs = self.asked().returns();
    }

    // The procedure that runs.
    pub fn running(&self) -> ProcedureNumber
        ensures result { result.0 ≡ self.now.pairs.start }
        ensures runner { (starts joins : List ℕ) → Room starts joins self.now.pairs
            → result.0 ≡ runner (bags_in starts joins self.now.pairs) }
    {
        self.asked().running()
    }

    // Has main not returned yet?
    pub fn main_is_open(&self) -> bool
        ensures { result ≡ ltb 0 self.now.pairs.count }
    {
        self.asked().main_is_open()
    }
}

impl Asked<'_> {
    // The procedure that runs.
    #[tactic(auto, using(crate::proofs::Pieces::runner_held))]
    pub fn running(&self) -> ProcedureNumber
        ensures result { result.0 ≡ self.now.pairs.start }
        ensures runner { (starts joins : List ℕ) → Room starts joins self.now.pairs
            → result.0 ≡ runner (bags_in starts joins self.now.pairs) }
    {
        ProcedureNumber(self.pairs.start)
    }

    // Has main not returned yet?
    pub fn main_is_open(&self) -> bool
        ensures { result ≡ ltb 0 self.now.pairs.count }
    {
        0 < self.pairs.count
    }

    // The pairs once the running procedure has returned, which changes nothing of the pieces. Where main returns, place 0 is read.
    pub fn returns(&self) -> Pairs
        requires count_nonzero { 0 < self.now.pairs.count }
        requires count_in_bounds { self.now.pairs.count ≤ length self.now.starts.now }
        requires count_in_bounds_2 { self.now.pairs.count ≤ length self.now.joins.now }
        ensures result { result ≡ record {
          count = self.now.pairs.count - 1;
          begun = self.now.pairs.begun;
          start = get_or self.now.starts.now (self.now.pairs.count - 2) 0;
          join = get_or self.now.joins.now (self.now.pairs.count - 2) 0;
        } }
        ensures bags { AskedInRoom self.now
            → Carries return self.now.starts.now self.now.joins.now self.now.pairs self.now.starts.now self.now.joins.now result }
    {
        let count = self.pairs.count;
        let at = count.saturating_sub(2);
        Pairs {
            count: count - 1,
            start: self.starts[at],
            join: self.joins[at],
            ..self.pairs
        }
    }
}
