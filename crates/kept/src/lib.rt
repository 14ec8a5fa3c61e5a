// The entries kept for each location, as lists in lent memory, and what an access makes of them. Nothing here knows of bytes or
// kinds of events; of the bags it knows only what they answer about a procedure.
//
// The lists are a value, `KeptLists`: `empty` sets them up, `access` brings one access in, and `clear` leaves the pieces zero.
#![tactic(auto)]

ghost use Rattle.std.specs.Prelude.{◌≡◌, false, cond, ℕ, ◌≤◌, ◌<◌, ◌+◌, [], ◌∷◌, ◌++◌, eqb, length, set, drop, replicate};
ghost use Rattle.bags.specs.Lent.{AskedInRoom, bags_asked};
ghost use Rattle.kept.specs.declared.Seen.{Seen};
ghost use Rattle.kept.specs.Rules.{dropped};
ghost use Rattle.kept.specs.Pieces.{piece_size, slots_of, slots_freed, lists_in, LaidOut, Fits, Room, none_used, cleared};
ghost use Rattle.kept.specs.Lent.{pieces_of, SameLoans, entries_kept};
ghost use Rattle.kept.specs.Access.{parallel_by, code_of, access_code, accessed, number_of, slots_after, Accepted, AfterAccess};
ghost use Rattle.kept.specs.Parts.{slot_at, entry_of, nothing_seen, into, weighed_entry, seen_over, looked_over, is_full, Walkable};
ghost use Rattle.kept.specs.Parts.{named_at, heads_linked, links_linked, drops_by, how_many, FirstDropped, Pruned, slot_for, slots_then};

use bags::ask::{Answer, Asked, ProcedureNumber};
use locks::{apart, within};
use trace::EventNumber;

// So many locations, and so many slots.
const PIECE: usize = 4096;

// An access that may be kept: the event's number, the procedure that makes it, and its lock set, one word as 01 asks for it.
#[derive(Clone, Copy, Debug, PartialEq, Eq)]
pub struct Entry {
    pub event: EventNumber,
    pub procedure: ProcedureNumber,
    pub locks: u64,
}

// Which slots hold no entry: `freed` links those whose entry was dropped, by a number as the pieces hold it, and from `used` on they
// never held one.
#[derive(Clone, Copy, Debug, Default, PartialEq, Eq)]
pub struct Slots {
    pub freed: u32,
    pub used: usize,
}

// The lists of all locations in five pieces, as C lends them: the heads by location, and by slot the link to the next slot and the
// entry. A link is 0 at the end of a list, so that lists in pieces of zeros are empty, and else the next slot and one more. The lists
// are in `Room` from `empty` on, and the pieces may hold anything before.
#[derive(Drop)]
pub struct KeptLists<'a> {
    pub heads: &'a mut [u32],
    pub links: &'a mut [u32],
    pub events: &'a mut [u32],
    pub procedures: &'a mut [u32],
    pub sets: &'a mut [u64],
    pub slots: Slots,
}

// What an access gives: the visits, and the kept entry that is named, the one that it races with.
#[derive(Clone, Copy, Debug, PartialEq, Eq)]
pub struct Visited {
    pub visits: u32,
    pub race: Option<Entry>,
}

// Why an access is refused.
#[derive(Clone, Copy, Debug, PartialEq, Eq)]
pub enum NotKept {
    InNoBag = 12,
    Full = 13,
}

// A link, as the pieces hold it: it leads to a slot and names the entry there, or it leads nowhere and names none. (With an
// `Option` in its place an access is slower.)
#[derive(Clone, Copy)]
struct Link(u32);

// What the visits to a list have found so far: how many there were, the first entry that races, whether some entry leaves the access
// out, how many are to be dropped, and the last entry that stays; and the first to be dropped, with the last that stays before it.
// Nothing compares or prints one, nor a `Weighed` or a `Link`.
#[derive(Clone, Copy)]
struct Seen {
    visits: u32,
    race: Link,
    omitted: bool,
    dropped: u32,
    last: Link,
    first: Link,
    before: Link,
}

// What becomes of an entry that is visited: it stays; it is dropped; or it is parallel with the access, and so stays, and may race with
// it, and may leave it out.
#[derive(Clone, Copy)]
enum Weighed {
    Stays,
    Goes,
    Beside { races: bool, omits: bool },
}

impl NotKept {
    // The code that stands for the refusal.
    pub fn code(self) -> u32
        ensures { result ≡ number_of self }
    {
        self as u32
    }
}

impl Link {
    // The link that leads to a slot.
    fn to(slot: usize) -> Link
        requires { slot < piece_size }
        ensures { result.0 ≡ slot + 1 }
    {
        Link(slot as u32 + 1)
    }

    // The slot that the link leads to.
    fn slot(self) -> Option<usize>
        ensures { result ≡ slot_at self.0 }
    {
        if self.0 == 0 {
            None
        } else {
            Some(self.0 as usize - 1)
        }
    }

    // This link, or the other where this one leads nowhere.
    fn or(self, other: Link) -> Link
        ensures { result ≡ cond (eqb self.0 0) other self }
    {
        if self.0 == 0 { other } else { self }
    }
}

impl Seen {
    // Nothing is visited yet.
    fn nothing() -> Seen
        ensures { result ≡ nothing_seen }
    {
        Seen {
            visits: 0,
            race: Link(0),
            omitted: false,
            dropped: 0,
            last: Link(0),
            first: Link(0),
            before: Link(0),
        }
    }

    // One entry more is visited, and this becomes of it.
    fn and(self, at: Link, entry: Weighed) -> Seen
        requires visits_lt_piece_size { self.visits < piece_size }
        requires dropped_le_visits { self.dropped ≤ self.visits }
        ensures { result ≡ into entry at.0 self }
    {
        let visits = self.visits + 1;
        match entry {
            Weighed::Stays => Seen {
                visits,
                last: at,
                ..self
            },
            Weighed::Goes => Seen {
                visits,
                dropped: self.dropped + 1,
                first: if self.dropped == 0 { at } else { self.first },
                before: if self.dropped == 0 {
                    self.last
                } else {
                    self.before
                },
                ..self
            },
            Weighed::Beside { races, omits } => Seen {
                visits,
                race: if races { self.race.or(at) } else { self.race },
                omitted: self.omitted | omits,
                last: at,
                ..self
            },
        }
    }

    // Would the entry find no slot?
    fn is_full(self, slots: Slots) -> bool
        ensures { result ≡ is_full self slots }
    {
        !self.omitted & (self.dropped == 0) & (slots.freed == 0) & (slots.used == PIECE)
    }
}

impl Slots {
    // The slot for the next entry is the one freed last, or else the first never used.
    fn next(self) -> usize
        ensures { result ≡ slot_for self }
    {
        Link(self.freed).slot().unwrap_or(self.used)
    }
}

// The used part of a piece is zero, and the rest is as it was. (With `fill` it was not proved for numbers of any width.)
#[tactic(auto, using(crate::proofs::Clearing::clearing))]
pub fn clear_piece<T: Copy>(piece: &mut [T], zero: T)
    requires { piece_size ≤ length piece.old }
    ensures { piece.new ≡ replicate piece_size zero ++ drop piece_size piece.old }
{
    for at in 0..PIECE {
        piece[at] = zero;
    }
}

// What becomes of the entry of that procedure, with those locks. The bags are asked only where the answer matters.
#[tactic(auto, unfolding(crate::specs::Parts::weighed_entry, crate::specs::Rules::races, crate::specs::Rules::dropped, crate::specs::Rules::omits))]
fn weigh(procedure: ProcedureNumber, locks: u64, entry: Entry, runs: &Asked<'_>) -> Weighed
    requires { AskedInRoom runs.now }
    ensures { (at : ℕ) (seen : Seen)
        → into result at seen ≡ weighed_entry (bags_asked runs.now) entry at (entry_of procedure.0 locks) seen }
{
    let ours = entry.locks;
    let nothing_in_common = apart(locks, ours);
    let lies_within = within(locks, ours);
    let contains = within(ours, locks);
    if !(nothing_in_common | lies_within | contains) {
        return Weighed::Stays;
    }
    if runs.ask(procedure) == Answer::InParallel {
        return Weighed::Beside {
            races: nothing_in_common,
            omits: lies_within,
        };
    }
    if contains {
        return Weighed::Goes;
    }
    Weighed::Stays
}

impl KeptLists<'_> {
    // There are 4,096 empty lists. What the pieces held before does not matter.
    #[tactic(auto, unfolding(crate::specs::Pieces::cleared))]
    pub fn empty(&mut self)
        requires { piece_size ≤ length self.old.heads.now }
        ensures slots { self.new.slots ≡ none_used }
        ensures heads { self.new.heads.now ≡ cleared piece_size self.old.heads.now }
        ensures links { self.new.links.now ≡ self.old.links.now }
        ensures entries { entries_kept self.old self.new }
        ensures lent { SameLoans self.old self.new }
    {
        clear_piece(self.heads, 0);
        self.slots = Slots { freed: 0, used: 0 };
    }

    // The used part of each piece is zero, and the rest is as it was.
    #[tactic(auto, unfolding(crate::specs::Pieces::cleared))]
    pub fn clear(&mut self)
        requires { Fits (pieces_of self.old) }
        ensures heads { self.new.heads.now ≡ cleared piece_size self.old.heads.now }
        ensures links { self.new.links.now ≡ cleared piece_size self.old.links.now }
        ensures events { self.new.events.now ≡ cleared piece_size self.old.events.now }
        ensures procedures { self.new.procedures.now ≡ cleared piece_size self.old.procedures.now }
        ensures sets { self.new.sets.now ≡ cleared piece_size self.old.sets.now }
        ensures slots { self.new.slots ≡ self.old.slots }
        ensures lent { SameLoans self.old self.new }
    {
        clear_piece(self.heads, 0);
        clear_piece(self.links, 0);
        clear_piece(self.events, 0);
        clear_piece(self.procedures, 0);
        clear_piece(self.sets, 0);
    }

    // An access to a location, the bags being as they stand before it. The list is only read until the refusals are ruled out; then
    // the pieces change.
    pub fn access(
        &mut self,
        location: u32,
        entry: Entry,
        runs: &Asked<'_>,
    ) -> Result<Visited, NotKept>
        requires bags_room { AskedInRoom runs.now }
        requires room { Room (pieces_of self.old) self.old.slots }
        requires location_lt_piece_size { location < piece_size }
        ensures result { result ≡ accessed (bags_asked runs.now) location entry (lists_in (pieces_of self.old)) }
        ensures code { code_of result ≡ access_code (bags_asked runs.now) location entry (lists_in (pieces_of self.old)) }
        ensures pieces { AfterAccess (bags_asked runs.now) location entry (pieces_of self.old) self.old.slots
            (pieces_of self.new) self.new.slots result }
        ensures lent { SameLoans self.old self.new }
    {
        let list = location as usize;
        let first = Link(self.heads[list]);
        if let Some(slot) = first.slot() {
            if self.links[slot] == 0 {
                return self.meet_one(list, first, slot, entry, runs);
            }
        }
        let seen = self.look(list, entry, runs)?;
        if seen.is_full(self.slots) {
            return Err(NotKept::Full);
        }
        let race = self.named_at(seen.race);
        self.change(list, entry, seen, runs);
        Ok(Visited {
            visits: seen.visits,
            race,
        })
    }

    // The same where the list has one entry, in the slot that `first` leads to: if it is dropped, the new one takes its slot. Most lists
    // are as short as that.
    fn meet_one(
        &mut self,
        location: usize,
        first: Link,
        slot: usize,
        entry: Entry,
        runs: &Asked<'_>,
    ) -> Result<Visited, NotKept>
        requires bags_room { AskedInRoom runs.now }
        requires room { Room (pieces_of self.old) self.old.slots }
        requires location_lt_piece_size { location < piece_size }
        requires first_value { first.0 ≡ slot + 1 }
        requires location_value { slots_of self.old.heads.now self.old.links.now location ≡ slot ∷ [] }
        ensures result { result ≡ accessed (bags_asked runs.now) location entry (lists_in (pieces_of self.old)) }
        ensures pieces { AfterAccess (bags_asked runs.now) location entry (pieces_of self.old) self.old.slots
            (pieces_of self.new) self.new.slots result }
        ensures lent { SameLoans self.old self.new }
    {
        let procedure = ProcedureNumber(self.procedures[slot]);
        if !runs.in_some_bag(procedure) {
            return Err(NotKept::InNoBag);
        }
        let weighed = weigh(procedure, self.sets[slot], entry, runs);
        let none = Seen::nothing();
        let seen = none.and(first, weighed);
        let visits = seen.visits;
        if seen.dropped != 0 {
            self.store(slot, entry);
            return Ok(Visited { visits, race: None });
        }
        let race = self.named_at(seen.race);
        if seen.omitted {
            return Ok(Visited { visits, race });
        }
        if seen.is_full(self.slots) {
            return Err(NotKept::Full);
        }
        self.append(location, seen.last, entry);
        Ok(Visited { visits, race })
    }

    // The entry is put in a slot.
    fn store(&mut self, slot: usize, entry: Entry)
        requires slot_lt_piece_size { slot < piece_size }
        requires piece_size_in_bounds { piece_size ≤ length self.old.events.now }
        requires piece_size_in_bounds_2 { piece_size ≤ length self.old.procedures.now }
        requires piece_size_in_bounds_3 { piece_size ≤ length self.old.sets.now }
        ensures heads { self.new.heads.now ≡ self.old.heads.now }
        ensures links { self.new.links.now ≡ self.old.links.now }
        ensures events { self.new.events.now ≡ set self.old.events.now slot entry.event.0 }
        ensures procedures { self.new.procedures.now ≡ set self.old.procedures.now slot entry.procedure.0 }
        ensures sets { self.new.sets.now ≡ set self.old.sets.now slot entry.locks }
        ensures slots { self.new.slots ≡ self.old.slots }
        ensures lent { SameLoans self.old self.new }
    {
        self.events[slot] = entry.event.0;
        self.procedures[slot] = entry.procedure.0;
        self.sets[slot] = entry.locks;
    }

    // The dropped go, and the entry comes unless it is left out.
    fn change(&mut self, location: usize, entry: Entry, seen: Seen, runs: &Asked<'_>)
        requires bags_room { AskedInRoom runs.now }
        requires room { Room (pieces_of self.old) self.old.slots }
        requires location_lt_piece_size { location < piece_size }
        requires seen_value { seen ≡ seen_over (bags_asked runs.now) entry self.old.procedures.now self.old.sets.now
            (slots_of self.old.heads.now self.old.links.now location) nothing_seen }
        requires slots_value { is_full seen self.old.slots ≡ false }
        ensures slots { self.new.slots ≡ slots_after (bags_asked runs.now) location entry (pieces_of self.old) self.old.slots }
        ensures pieces { Accepted (bags_asked runs.now) location entry (pieces_of self.old) self.old.slots (pieces_of self.new) }
        ensures lent { SameLoans self.old self.new }
    {
        self.prune(location, entry, seen, runs);
        if !seen.omitted {
            self.append(location, seen.last, entry);
        }
    }

    // Every entry of a location's list is visited, unless one is found whose procedure is in no bag; nothing changes.
    fn look(&self, location: usize, entry: Entry, runs: &Asked<'_>) -> Result<Seen, NotKept>
        requires bags_room { AskedInRoom runs.now }
        requires walkable { Walkable self.now.heads.now self.now.links.now location }
        requires piece_size_in_bounds { piece_size ≤ length self.now.procedures.now }
        requires piece_size_in_bounds_2 { piece_size ≤ length self.now.sets.now }
        ensures { result ≡ looked_over (bags_asked runs.now) entry self.now.procedures.now self.now.sets.now
            (slots_of self.now.heads.now self.now.links.now location) }
    {
        let mut seen = Seen::nothing();
        let mut at = Link(self.heads[location]);
        while let Some(slot) = at.slot() {
            let procedure = ProcedureNumber(self.procedures[slot]);
            if !runs.in_some_bag(procedure) {
                return Err(NotKept::InNoBag);
            }
            let weighed = weigh(procedure, self.sets[slot], entry, runs);
            seen = seen.and(at, weighed);
            at = Link(self.links[slot]);
        }
        Ok(seen)
    }

    // The entry that a link names.
    fn named_at(&self, at: Link) -> Option<Entry>
        requires at_in_bounds { at.0 ≤ length self.now.events.now }
        requires at_in_bounds_2 { at.0 ≤ length self.now.procedures.now }
        requires at_in_bounds_3 { at.0 ≤ length self.now.sets.now }
        ensures { result ≡ named_at self.now.events.now self.now.procedures.now self.now.sets.now at.0 }
    {
        match at.slot() {
            None => None,
            Some(slot) => Some(Entry {
                event: EventNumber(self.events[slot]),
                procedure: ProcedureNumber(self.procedures[slot]),
                locks: self.sets[slot],
            }),
        }
    }

    // What comes after the entry that `last` names, or first in the location's list where it names none, is now what `to` leads to.
    fn relink(&mut self, location: usize, last: Link, to: Link)
        requires location_in_bounds { location < length self.old.heads.now }
        requires last_in_bounds { last.0 ≤ length self.old.links.now }
        ensures heads { self.new.heads.now ≡ heads_linked last.0 location to.0 self.old.heads.now }
        ensures links { self.new.links.now ≡ links_linked last.0 to.0 self.old.links.now }
        ensures entries { entries_kept self.old self.new }
        ensures slots { self.new.slots ≡ self.old.slots }
        ensures lent { SameLoans self.old self.new }
    {
        match last.slot() {
            None => self.heads[location] = to.0,
            Some(slot) => self.links[slot] = to.0,
        }
    }

    // Is the entry in a slot dropped?
    fn drops(&self, slot: usize, entry: Entry, runs: &Asked<'_>) -> bool
        requires bags_room { AskedInRoom runs.now }
        requires procedures_in_bounds { slot < length self.now.procedures.now }
        requires sets_in_bounds { slot < length self.now.sets.now }
        ensures { result ≡ drops_by (bags_asked runs.now) entry self.now.procedures.now self.now.sets.now slot }
    {
        let weighed = weigh(
            ProcedureNumber(self.procedures[slot]),
            self.sets[slot],
            entry,
            runs,
        );
        matches!(weighed, Weighed::Goes)
    }

    // The entries to be dropped, so many as were seen, are unlinked and their slots freed.
    fn prune(&mut self, location: usize, entry: Entry, seen: Seen, runs: &Asked<'_>)
        requires bags_room { AskedInRoom runs.now }
        requires location_lt_piece_size { location < piece_size }
        requires fits { Fits (pieces_of self.old) }
        requires laid_out { LaidOut self.old.heads.now self.old.links.now self.old.slots
            (slots_of self.old.heads.now self.old.links.now) (slots_freed self.old.links.now self.old.slots) }
        requires count_value { seen.dropped ≡ how_many (drops_by (bags_asked runs.now) entry self.old.procedures.now self.old.sets.now)
            (slots_of self.old.heads.now self.old.links.now location) }
        requires first_dropped { (seen.dropped ≡ 0 → ⊥)
            → FirstDropped (drops_by (bags_asked runs.now) entry self.old.procedures.now self.old.sets.now)
            (slots_of self.old.heads.now self.old.links.now location) seen.first.0 seen.before.0 }
        ensures pruned { Pruned (drops_by (bags_asked runs.now) entry self.old.procedures.now self.old.sets.now) location
            self.old.heads.now self.old.links.now self.old.slots self.new.heads.now self.new.links.now self.new.slots }
        ensures entries { entries_kept self.old self.new }
        ensures lent { SameLoans self.old self.new }
    {
        if seen.dropped == 0 {
            return;
        }
        let mut last = seen.before;
        let mut at = seen.first;
        let mut left = seen.dropped;
        while left != 0 {
            let Some(slot) = at.slot() else {
                return;
            };
            let here = at;
            at = Link(self.links[slot]);
            if self.drops(slot, entry, runs) {
                self.relink(location, last, at);
                self.links[slot] = self.slots.freed;
                self.slots.freed = here.0;
                left -= 1;
            } else {
                last = here;
            }
        }
    }

    // Which slots hold no entry once the next one does.
    fn slots_then(&self) -> Slots
        requires freed_in_bounds { self.now.slots.freed ≤ length self.now.links.now }
        requires used_le_piece_size { self.now.slots.used ≤ piece_size }
        ensures { result ≡ slots_then self.now.links.now self.now.slots }
    {
        let slots = self.slots;
        match Link(slots.freed).slot() {
            None => Slots {
                used: slots.used + 1,
                ..slots
            },
            Some(slot) => Slots {
                freed: self.links[slot],
                ..slots
            },
        }
    }

    // The entry is put at the end of a location's list, after the entry that `last` names.
    fn append(&mut self, location: usize, last: Link, entry: Entry)
        requires location_in_bounds { location < length self.old.heads.now }
        requires last_le_piece_size { last.0 ≤ piece_size }
        requires freed_le_piece_size { self.old.slots.freed ≤ piece_size }
        requires used_le_piece_size { self.old.slots.used ≤ piece_size }
        requires slots_bound { slot_for self.old.slots < piece_size }
        requires fits { Fits (pieces_of self.old) }
        ensures slots { self.new.slots ≡ slots_then self.old.links.now self.old.slots }
        ensures heads { self.new.heads.now ≡ heads_linked last.0 location (slot_for self.old.slots + 1) self.old.heads.now }
        ensures links { self.new.links.now
            ≡ links_linked last.0 (slot_for self.old.slots + 1) (set self.old.links.now (slot_for self.old.slots) 0) }
        ensures events { self.new.events.now ≡ set self.old.events.now (slot_for self.old.slots) entry.event.0 }
        ensures procedures { self.new.procedures.now ≡ set self.old.procedures.now (slot_for self.old.slots) entry.procedure.0 }
        ensures sets { self.new.sets.now ≡ set self.old.sets.now (slot_for self.old.slots) entry.locks }
        ensures lent { SameLoans self.old self.new }
    {
        let slot = self.slots.next();
        self.slots = self.slots_then();
        self.links[slot] = 0;
        self.store(slot, entry);
        self.relink(location, last, Link::to(slot));
    }
}
