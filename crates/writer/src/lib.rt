// The writer to put under a recorder: events into a lent buffer, each in the one form that the reader accepts.
#![tactic(auto)]

ghost use Rattle.std.specs.Prelude.{◌≡◌, ◌∷◌, [], ◌+◌, ◌*◌, ◌^◌, ◌≤◌, ◌<◌, length};
ghost use Rattle.trace.specs.Numbers.{most_groups};
ghost use Rattle.trace.specs.Kinds.{as_number, reserved, largest_operand};
ghost use Rattle.writer.specs.Form.{groups, bytes_of, bytes_of_all};
ghost use Rattle.writer.specs.Lists.{events_in};
ghost use Rattle.writer.specs.Contract.{code_for, event_code, list_code, overwritten, Wrote};
ghost use Rattle.writer.specs.Parts.{Judged};
ghost use Rattle.writer.specs.declared.Why.TheVariants.{Unreadable};

use trace::{Event, Kind, Refusal};

// The operand of a last kind that has none in its list: above every largest, since an event has a number there.
const NO_OPERAND: u32 = u32::MAX;

// The code and the next place, on a refusal the given one, as C gets them.
#[repr(C)]
#[derive(Clone, Copy, Debug, PartialEq, Eq)]
pub struct Written {
    pub code: u32,
    pub next: usize,
}

// Why an event or a list is refused: the reader would refuse it too, or the bytes don't fit or the place lies past the end.
#[derive(Clone, Copy, Debug, PartialEq, Eq)]
enum Why {
    Unreadable(Refusal),
    Place,
}

impl From<Refusal> for Why {
    ghost from_gives = { λ refusal why. why ≡ Unreadable refusal };

    fn from(refusal: Refusal) -> Why {
        Why::Unreadable(refusal)
    }
}

impl Why {
    // The code that stands for it; a refusal of the reader has its own.
    fn code(self) -> u32
        ensures { result ≡ code_for self }
    {
        match self {
            Why::Unreadable(refusal) => refusal.code(),
            Why::Place => 15,
        }
    }
}

// A refusal leaves the place as it was.
fn refused(why: Why, at: usize) -> Written
    ensures { (result.code ≡ code_for why) × (result.next ≡ at) }
{
    Written {
        code: why.code(),
        next: at,
    }
}

// Writes an event into the buffer from a place on.
pub fn write_event(buffer: &mut [u8], at: usize, kind: u32, operand: u32) -> Written
    ensures { Wrote (record { kind = kind; operand = operand } ∷ []) buffer.old at result buffer.new }
{
    let event = Event { kind, operand };
    match judge(buffer.len(), at, event) {
        Ok(next) => {
            put(buffer, at, event);
            Written { code: 0, next }
        }
        Err(why) => refused(why, at),
    }
}

// Writes a list of events, two numbers each, one after the other, or none of them.
pub fn write_events(buffer: &mut [u8], at: usize, events: &[u32]) -> Written
    ensures { Wrote (events_in events.now) buffer.old at result buffer.new }
{
    match judge_all(buffer.len(), at, events) {
        Ok(next) => {
            put_all(buffer, at, events);
            Written { code: 0, next }
        }
        Err(first) => refused(first, at),
    }
}

// The number of an event that the table allows.
#[tactic(auto, using(trace::proofs::Laws::operand_small))]
fn number_of(event: Event) -> u32
    requires kind_lt_reserved { event.kind < reserved }
    requires operand_bound { event.operand ≤ largest_operand event }
    ensures { result ≡ as_number event }
{
    event.operand * 8 + event.kind
}

// How many groups a number takes.
#[tactic(auto, using(crate::proofs::Groups::counting))]
fn size_of(number: u32) -> usize
    requires { number < 128 ^ most_groups }
    ensures { result ≡ length (groups most_groups number) }
{
    let mut left = number;
    let mut size = 1;
    while 128 <= left {
        left /= 128;
        size += 1;
    }
    size
}

// Where the next event goes after one that is put at a place in so much room, or why that one is refused.
#[tactic(auto, unfolding(crate::specs::Form::bytes_of), using(crate::proofs::Groups::deciding))]
fn judge(room: usize, at: usize, event: Event) -> Result<usize, Why>
    ensures { Judged (event_code room at event) (at + length (bytes_of event)) result }
{
    Kind::try_from(event.kind)?;
    if event.largest_operand() < event.operand {
        return Err(Why::Unreadable(Refusal::OperandLarge));
    }
    if room < at {
        return Err(Why::Place);
    }
    let size = size_of(number_of(event));
    if size <= room - at {
        return Ok(at + size);
    }
    Err(Why::Place)
}

// Writes an event that is not refused, and says where the next one goes.
#[tactic(auto, unfolding(crate::specs::Form::bytes_of), using(crate::proofs::Groups::putting))]
fn put(buffer: &mut [u8], at: usize, event: Event) -> usize
    requires { event_code (length buffer.old) at event ≡ 0 }
    ensures { (result ≡ at + length (bytes_of event)) × (buffer.new ≡ overwritten buffer.old at (bytes_of event)) }
{
    let mut next = at;
    let mut rest = number_of(event);
    while 128 <= rest {
        buffer[next] = (128 + rest % 128) as u8;
        next += 1;
        rest /= 128;
    }
    buffer[next] = rest as u8;
    next + 1
}

// The same of a list of events. It is as numbers, a kind and an operand in turn; a last kind may have no operand.
#[tactic(auto, using(crate::proofs::Lists::judging))]
fn judge_all(room: usize, at: usize, events: &[u32]) -> Result<usize, Why>
    ensures { Judged (list_code room at (events_in events.now)) (at + length (bytes_of_all (events_in events.now))) result }
{
    let (pairs, last) = events.as_chunks::<2>();
    let mut next = at;
    for &[kind, operand] in pairs {
        next = judge(room, next, Event { kind, operand })?;
    }
    if let Some(&kind) = last.first() {
        return judge(
            room,
            next,
            Event {
                kind,
                operand: NO_OPERAND,
            },
        );
    }
    if room < next {
        return Err(Why::Place);
    }
    Ok(next)
}

// Writes a list of events, none of which is refused.
#[tactic(auto, using(crate::proofs::Lists::writing))]
fn put_all(buffer: &mut [u8], at: usize, events: &[u32])
    requires { list_code (length buffer.old) at (events_in events.now) ≡ 0 }
    ensures { buffer.new ≡ overwritten buffer.old at (bytes_of_all (events_in events.now)) }
{
    let (pairs, _) = events.as_chunks::<2>();
    let mut next = at;
    for &[kind, operand] in pairs {
        next = put(buffer, next, Event { kind, operand });
    }
}
