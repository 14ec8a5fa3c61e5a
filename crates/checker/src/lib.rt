// The race checker: one call that reads a trace, names every access that races with an earlier one, and leaves the lent working
// room zero.
//
// `check` is the call. It tests what was lent, and then goes through the trace with `step`, which brings one event in.
#![tactic(auto)]

ghost use Rattle.std.specs.Prelude.{◌≡◌, true, false, List, ℕ, ◌+◌, ◌≤◌, ◌<◌, length};
ghost use Rattle.trace.specs.Kinds.{is_access, location};
ghost use Rattle.bags.specs.Lent.{InRoom, SameLoans as SameRuns};
ghost use Rattle.kept.specs.declared.KeptLists.{KeptLists};
ghost use Rattle.kept.specs.Pieces.{piece_size, Fits};
ghost use Rattle.kept.specs.Lent.{pieces_of, SameLoans as SameLists};
ghost use Rattle.checker.specs.declared.End.TheVariants.{Unread, ProceduresMany, NotKept as EntryNotKept};
ghost use Rattle.checker.specs.Events.{events as events_of, run};
ghost use Rattle.checker.specs.Rules.{stop};
ghost use Rattle.checker.specs.Report.{race_with, found, laid};
ghost use Rattle.checker.specs.Call.{room, lent, left, most_bytes, code_alone, answer};
ghost use Rattle.checker.specs.Contract.{Contract};
ghost use Rattle.checker.specs.Steps.{code_of, Stands, AllRestsKept, ComesNext, Small, Safe, AfterStep};
ghost use Rattle.checker.specs.Steps.{counts_after, state_after, written_at, written, answer_with};

use bags::Full;
use bags::ask::{Pairs, Runs};
use kept::{Entry, KeptLists, NotKept, Slots, Visited, clear_piece};
use locks::Held;
use trace::{EventNumber, Found, Kind, Refusal, Refused, read_event};

// The size of each piece of working room, in numbers.
pub const PIECE: usize = 4096;

// The longest trace, in bytes.
pub const MOST_BYTES: usize = 16777216;

// The numbers of an entry of the report: location, earlier event, later event.
pub const NUMBERS: usize = 3;

// What the call returns, as C gets it: the code, the events accepted, the first byte not accepted (or the length), the accesses
// reported, the visits in all, and the most locks held at one moment.
#[repr(C)]
#[derive(Clone, Copy, Debug, PartialEq, Eq)]
pub struct Answer {
    pub code: u32,
    pub events: u32,
    pub offset: usize,
    pub races: u32,
    pub visits: u64,
    pub most: u32,
}

// The running counts: events accepted, accesses reported, visits, and the most locks held at one moment. They are `Small` as long as
// an event is left, and not after the last one.
#[derive(Clone, Copy)]
struct Counts {
    events: u32,
    races: u32,
    visits: u64,
    most: u32,
}

// What is brought forward from event to event beside the lists and the runs: the place of the next event, the locks held, and the
// counts. Nothing compares or prints one, nor a `Counts` or an `End`.
#[derive(Clone, Copy)]
struct State {
    at: usize,
    held: Held,
    counts: Counts,
}

// How a call ends: the trace is accepted, or why it is not. Two hold a refusal of a layer below, so that no number of theirs can be the
// code.
#[derive(Clone, Copy)]
enum End {
    Accepted,
    RoomShort,
    TraceLong,
    Unread(Refusal),
    AfterMain,
    Holding,
    HeldAlready,
    NotHeld,
    ProceduresMany,
    NotKept(NotKept),
    Unfinished,
}

impl End {
    // The code that stands for it.
    fn code(self) -> u32
        ensures { result ≡ code_of self }
    {
        match self {
            Self::Accepted => 0,
            Self::RoomShort => 1,
            Self::TraceLong => 2,
            Self::Unread(why) => why.code(),
            Self::AfterMain => 7,
            Self::Holding => 8,
            Self::HeldAlready => 9,
            Self::NotHeld => 10,
            Self::ProceduresMany => 11,
            Self::NotKept(why) => why.code(),
            Self::Unfinished => 14,
        }
    }
}

impl From<Refused> for End {
    ghost from_gives = { λ refused end. end ≡ Unread refused.why };

    fn from(refused: Refused) -> End {
        End::Unread(refused.why)
    }
}

impl From<Refusal> for End {
    ghost from_gives = { λ why end. end ≡ Unread why };

    fn from(why: Refusal) -> End {
        End::Unread(why)
    }
}

impl From<Full> for End {
    ghost from_gives = { λ _ end. end ≡ ProceduresMany };

    fn from(_full: Full) -> End {
        End::ProceduresMany
    }
}

impl From<NotKept> for End {
    ghost from_gives = { λ why end. end ≡ EntryNotKept why };

    fn from(why: NotKept) -> End {
        End::NotKept(why)
    }
}

// The call: reads a trace, reports the races in it, and returns the code and the counts. Any bytes, any lengths, and whatever the
// room holds. The pieces come one by one, as C lends them.
pub fn check(
    trace: &[u8],
    report: &mut [u32],
    heads: &mut [u32],
    links: &mut [u32],
    events: &mut [u32],
    procedures: &mut [u32],
    sets: &mut [u64],
    starts: &mut [u32],
    joins: &mut [u32],
) -> Answer
    ensures contract { Contract
        (lent trace.now report.old
        (room heads.old links.old events.old procedures.old sets.old starts.old
        joins.old))
        (left result report.new
        (room heads.new links.new events.new procedures.new sets.new starts.new
        joins.new)) }
{
    let short = (heads.len() < PIECE)
        | (links.len() < PIECE)
        | (events.len() < PIECE)
        | (procedures.len() < PIECE)
        | (sets.len() < PIECE)
        | (starts.len() < PIECE)
        | (joins.len() < PIECE);
    if short {
        return refuse(End::RoomShort);
    }
    if MOST_BYTES < trace.len() {
        return refuse(End::TraceLong);
    }
    let mut lists = KeptLists {
        heads,
        links,
        events,
        procedures,
        sets,
        slots: Slots::default(),
    };
    let mut runs = Runs {
        starts,
        joins,
        pairs: Pairs::default(),
    };
    let answer = examine(trace, report, &mut lists, &mut runs);
    lists.clear();
    clear_piece(runs.starts, 0);
    clear_piece(runs.joins, 0);
    answer
}

// A refusal before anything is read: all other numbers are 0.
fn refuse(end: End) -> Answer
    ensures { result ≡ code_alone (code_of end) }
{
    Answer {
        code: end.code(),
        events: 0,
        offset: 0,
        races: 0,
        visits: 0,
        most: 0,
    }
}

// Goes through a trace that may be read, in room that is long enough.
fn examine(
    trace: &[u8],
    report: &mut [u32],
    lists: &mut KeptLists<'_>,
    runs: &mut Runs<'_>,
) -> Answer
    requires fits { Fits (pieces_of lists.old) }
    requires piece_size_in_bounds { piece_size ≤ length runs.old.starts.now }
    requires piece_size_in_bounds_2 { piece_size ≤ length runs.old.joins.now }
    requires trace_len_bound { length trace.now ≤ most_bytes }
    ensures result { result ≡ answer trace.now }
    ensures report { report.new ≡ laid (found (run (events_of trace.now)) (stop trace.now)) report.old }
    ensures rests { AllRestsKept lists.old runs.old lists.new runs.new }
    ensures lists_lent { SameLists lists.old lists.new }
    ensures runs_lent { SameRuns runs.old runs.new }
{
    runs.begin();
    lists.empty();
    let mut state = State {
        at: 0,
        held: Held::none(),
        counts: Counts {
            events: 0,
            races: 0,
            visits: 0,
            most: 0,
        },
    };
    while state.at < trace.len() {
        match step(trace, state, report, lists, runs) {
            Ok(then) => state = then,
            Err(end) => return state.answer(end),
        }
    }
    if runs.main_is_open() {
        return state.answer(End::Unfinished);
    }
    state.answer(End::Accepted)
}

// One event: it is read, tested against the rules, and brought in.
fn step(
    trace: &[u8],
    state: State,
    report: &mut [u32],
    lists: &mut KeptLists<'_>,
    runs: &mut Runs<'_>,
) -> Result<State, End>
    requires stands { Stands trace.now state.counts.events state lists.old runs.old }
    requires at_in_bounds { state.at < length trace.now }
    requires trace_len_bound { length trace.now ≤ most_bytes }
    ensures step { AfterStep trace.now state.counts.events report.old lists.old runs.old report.new lists.new runs.new result }
    ensures lists_lent { SameLists lists.old lists.new }
    ensures runs_lent { SameRuns runs.old runs.new }
{
    let found = read_event(trace, state.at)?;
    if !runs.main_is_open() {
        return Err(End::AfterMain);
    }
    if found.event.is_access() {
        bring_access(state, found, report, lists, runs)
    } else {
        bring_other(state, found, runs)
    }
}

// An event that is no access, while main runs. Codes 8 to 11 are each tested where the kind is one that they speak of.
fn bring_other(state: State, found: Found, runs: &mut Runs<'_>) -> Result<State, End>
    requires bags_room { InRoom runs.old }
    requires small { Small state.counts }
    requires event_value { is_access found.event ≡ false }
    ensures step { (trace report : List ℕ) (lists : KeptLists) → ComesNext trace state lists runs.old found.event found.next
        → AfterStep trace state.counts.events report lists runs.old report lists runs.new result }
    ensures runs_lent { SameRuns runs.old runs.new }
{
    let Found { event, next } = found;
    let kind = Kind::try_from(event.kind)?;
    let lock = event.operand;
    let held = state.held;
    match kind {
        Kind::Lock => {
            if held.has(lock) {
                return Err(End::HeldAlready);
            }
            let then = held.take(lock);
            Ok(state.after_other(next, then, then.count()))
        }
        Kind::Unlock => {
            if !held.has(lock) {
                return Err(End::NotHeld);
            }
            Ok(state.after_other(next, held.release(lock), 0))
        }
        _ => {
            if !event.lawful_holding() & !held.is_empty() {
                return Err(End::Holding);
            }
            match kind {
                Kind::Spawn => runs.spawn()?,
                Kind::Return => runs.returns(),
                _ => runs.sync(),
            }
            Ok(state.after_other(next, held, 0))
        }
    }
}

// An access, while main runs.
fn bring_access(
    state: State,
    found: Found,
    report: &mut [u32],
    lists: &mut KeptLists<'_>,
    runs: &Runs<'_>,
) -> Result<State, End>
    requires safe { Safe state lists.old runs.now }
    requires event_value { is_access found.event ≡ true }
    requires event_bound { location found.event < piece_size }
    ensures step { (trace : List ℕ) → ComesNext trace state lists.old runs.now found.event found.next
        → AfterStep trace state.counts.events report.old lists.old runs.now report.new lists.new runs.now result }
    ensures lists_lent { SameLists lists.old lists.new }
{
    let Found { event, next } = found;
    let location = event.location();
    let entry = Entry {
        event: EventNumber(state.counts.events),
        procedure: runs.running(),
        locks: state.held.set_of_access(event.is_read()),
    };
    let Visited { visits, race } = lists.access(location, entry, &runs.asked())?;
    let races = note(report, state.counts.races, location, entry, race);
    Ok(state.after(next, state.held, races, visits, 0))
}

// The access is reported if an entry is named that it races with. Gives how many are reported then.
#[tactic(auto, unfolding(crate::specs::Steps::written))]
fn note(report: &mut [u32], races: u32, location: u32, entry: Entry, race: Option<Entry>) -> u32
    requires { races < most_bytes }
    ensures result { result ≡ races + length (race_with location entry race) }
    ensures report { report.new ≡ written races (race_with location entry race) report.old }
{
    match race {
        None => races,
        Some(earlier) => {
            write(report, races, location, earlier.event, entry.event);
            races + 1
        }
    }
}

// An entry of the report, after so many others, where it fits. (`as_chunks_mut` says nothing of what the slice ends as.)
#[tactic(auto, unfolding(crate::specs::Steps::written_at))]
fn write(report: &mut [u32], races: u32, location: u32, earlier: EventNumber, later: EventNumber)
    requires { races < most_bytes }
    ensures { report.new ≡ written_at races location earlier.0 later.0 report.old }
{
    let at = races as usize * NUMBERS;
    if at + NUMBERS <= report.len() {
        report[at] = location;
        report[at + 1] = earlier.0;
        report[at + 2] = later.0;
    }
}

impl Counts {
    // The counts after an accepted event: so many accesses are reported then, so many visits came to them, and so many locks are held,
    // or 0 where no lock was taken.
    fn after(self, races: u32, visits: u32, holding: u32) -> Counts
        requires { Small self }
        ensures { result ≡ counts_after self races visits holding }
    {
        Counts {
            events: self.events + 1,
            races,
            visits: self.visits + u64::from(visits),
            most: u32::max(self.most, holding),
        }
    }
}

// Brings the counts, which are lent, forward by one accepted event: the form that 01 names.
fn bring(counts: &mut Counts, races: u32, visits: u32, holding: u32)
    requires { Small counts.old }
    ensures { counts.new ≡ counts_after counts.old races visits holding }
{
    *counts = counts.after(races, visits, holding);
}

impl State {
    // The state after an accepted event: the place of the next one, the locks held, and the counts, which are lent to be brought
    // forward.
    fn after(mut self, next: usize, held: Held, races: u32, visits: u32, holding: u32) -> State
        requires { Small self.counts }
        ensures { result ≡ state_after self next held races visits holding }
    {
        bring(&mut self.counts, races, visits, holding);
        State {
            at: next,
            held,
            ..self
        }
    }

    // The state after an accepted event that is no access: nothing is visited or reported anew. So many locks are held then, or 0
    // where no lock was taken.
    fn after_other(self, next: usize, held: Held, holding: u32) -> State
        requires { Small self.counts }
        ensures { result ≡ state_after self next held self.counts.races 0 holding }
    {
        self.after(next, held, self.counts.races, 0, holding)
    }

    // The answer at this end, the counts being as they stand.
    fn answer(self, end: End) -> Answer
        ensures { result ≡ answer_with (code_of end) self }
    {
        let counts = self.counts;
        Answer {
            code: end.code(),
            events: counts.events,
            offset: self.at,
            races: counts.races,
            visits: counts.visits,
            most: counts.most,
        }
    }
}
