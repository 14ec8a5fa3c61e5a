// The question "is this procedure in series or in parallel with now, or in no bag?", asked of runs of procedure numbers. It
// knows pairs and nothing of the events that made them, so every family of traces whose bags are runs can share it.
ghost use Rattle.std.specs.Prelude.{◌≡◌, cond, List, ℕ, ◌≤◌, ◌<◌, length, get_or, ltb};
ghost use Rattle.bags.specs.Runs.{piece_size, bags_in, Room};
ghost use Rattle.bags.specs.Lent.{InRoom, bags_of, AskedInRoom, bags_asked};
ghost use Rattle.bags.specs.Ask.{answer_for, says_parallel, code_of};
ghost use Rattle.bags.specs.Search.{Found, Rising};
ghost use Rattle.bags.specs.Bags.{in_p_bag, in_some_bag};

// The number of a procedure, from 0 for main. It names a spawned body, and no place in the trace.
#[derive(Clone, Copy, Debug, PartialEq, Eq)]
pub struct ProcedureNumber(pub u32);

// How many pairs the lent pieces hold, how many procedures have begun, and the last pair, which is at hand here too.
#[derive(Clone, Copy, Debug, Default, PartialEq, Eq)]
pub struct Pairs {
    pub count: usize,
    pub begun: u32,
    pub start: u32,
    pub join: u32,
}

// The runs of the open procedures: a pair of numbers for each, in two pieces, as C lends them. They are `InRoom` from `begin` on as
// long as main is open, and not before or after that.
#[derive(Drop)]
pub struct Runs<'a> {
    pub starts: &'a mut [u32],
    pub joins: &'a mut [u32],
    pub pairs: Pairs,
}

// The same runs, lent with `&`: to ask of them takes no more than that.
#[derive(Clone, Copy, Debug, PartialEq, Eq)]
pub struct Asked<'a> {
    pub starts: &'a [u32],
    pub joins: &'a [u32],
    pub pairs: Pairs,
}

// Where a procedure is.
#[derive(Clone, Copy, Debug, PartialEq, Eq)]
pub enum Answer {
    InSeries,
    InParallel,
    InNoBag,
}

// So many places are tried one by one.
const NEAR: usize = 8;

impl Runs<'_> {
    // These runs, to be read.
    pub fn asked(&self) -> Asked<'_>
        ensures starts { result.starts.now ≡ self.now.starts.now }
        ensures joins { result.joins.now ≡ self.now.joins.now }
        ensures pairs { result.pairs ≡ self.now.pairs }
        ensures bags { bags_asked result ≡ bags_of self.now }
        ensures room { InRoom self.now → AskedInRoom result }
    {
        Asked {
            starts: self.starts,
            joins: self.joins,
            pairs: self.pairs,
        }
    }

    // Is this procedure in series or in parallel with what runs now, or in no bag?
    pub fn ask(&self, procedure: ProcedureNumber) -> Answer
        requires { InRoom self.now }
        ensures result { result ≡ answer_for procedure.0 (bags_of self.now) }
        ensures yes_or_no { says_parallel result ≡ in_p_bag procedure.0 (bags_of self.now) }
        ensures code { code_of result ≡ cond (in_some_bag procedure.0 (bags_of self.now)) 0 12 }
    {
        self.asked().ask(procedure)
    }

    // Is this procedure in a bag at all?
    pub fn in_some_bag(&self, procedure: ProcedureNumber) -> bool
        ensures result { result ≡ ltb procedure.0 self.now.pairs.begun }
        ensures bags { (starts joins : List ℕ) → Room starts joins self.now.pairs
            → result ≡ in_some_bag procedure.0 (bags_in starts joins self.now.pairs) }
    {
        self.asked().in_some_bag(procedure)
    }
}

impl Asked<'_> {
    // Is this procedure in series or in parallel with what runs now, or in no bag?
    #[tactic(auto, unfolding(crate::specs::Ask::answer_for, crate::specs::Bags::in_some_bag), using(crate::proofs::Pieces::in_no_bag, crate::proofs::Pieces::in_a_bag))]
    pub fn ask(&self, procedure: ProcedureNumber) -> Answer
        requires { AskedInRoom self.now }
        ensures result { result ≡ answer_for procedure.0 (bags_asked self.now) }
        ensures yes_or_no { says_parallel result ≡ in_p_bag procedure.0 (bags_asked self.now) }
        ensures code { code_of result ≡ cond (in_some_bag procedure.0 (bags_asked self.now)) 0 12 }
    {
        if self.pairs.begun <= procedure.0 {
            return Answer::InNoBag;
        }
        if self.is_parallel(procedure) {
            Answer::InParallel
        } else {
            Answer::InSeries
        }
    }

    // Is this procedure, which is in some bag, in parallel with what runs now?
    #[tactic(auto, using(crate::proofs::Pieces::tells))]
    fn is_parallel(&self, procedure: ProcedureNumber) -> bool
        requires room { AskedInRoom self.now }
        requires procedure_lt_begun { procedure.0 < self.now.pairs.begun }
        ensures { result ≡ in_p_bag procedure.0 (bags_asked self.now) }
    {
        let p = procedure.0;
        if self.pairs.start <= p {
            return self.pairs.join <= p;
        }
        let at = place_of(self.starts, self.pairs.count - 1, p);
        self.joins[at] <= p
    }

    // Is this procedure in a bag at all?
    #[tactic(auto, using(crate::proofs::Pieces::in_some))]
    pub fn in_some_bag(&self, procedure: ProcedureNumber) -> bool
        ensures result { result ≡ ltb procedure.0 self.now.pairs.begun }
        ensures bags { (starts joins : List ℕ) → Room starts joins self.now.pairs
            → result ≡ in_some_bag procedure.0 (bags_in starts joins self.now.pairs) }
    {
        procedure.0 < self.pairs.begun
    }
}

// The place of the last pair that starts at or below p, the pair at `top` starting above it. It is expected close to the top, so a
// few places are tried one by one, from the top down, and the rest by halves. It is at most p, and so, in a chain of nested spawns,
// the first that is tried. (A `for` over these places is slower: seven instructions for each and not five.)
fn place_of(starts: &[u32], top: usize, p: u32) -> usize
    requires top_in_bounds { top < length starts.now }
    requires top_lt_piece_size { top < piece_size }
    requires starts_bound { get_or starts.now 0 0 ≤ p }
    requires p_bound { p < get_or starts.now top 0 }
    requires rising { Rising starts.now top }
    ensures { Found starts.now top p result }
{
    let mut at = usize::min(top - 1, p as usize);
    let floor = at.saturating_sub(NEAR);
    while floor < at {
        if starts[at] <= p {
            return at;
        }
        at -= 1;
    }
    starts[..floor + 1].partition_point(|start| *start <= p) - 1
}
