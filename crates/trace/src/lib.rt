// The reader of the race checker: the bytes of a trace, and the event that stands at a place of it. Nothing here knows of
// procedures, locks held or what is kept.
#![tactic(auto)]

ghost use Rattle.std.specs.Prelude.{◌≡◌, ◌<◌};
ghost use Rattle.trace.specs.Numbers.{number_at};
ghost use Rattle.trace.specs.Kinds.{kind_named, entry, says_yes, largest_operand, lawful_holding, is_access, is_read, location};
ghost use Rattle.trace.specs.Events.{code_of, reading_at};

// A number has at most this many groups of seven bits.
pub const MOST_GROUPS: usize = 3;

// A row for each kind, a table of numbers as 01 asks for it: largest operand, lawful with a lock held, access, read mark.
pub const KINDS: [[u32; 4]; 8] = [
    [0, 0, 0, 0],
    [0, 0, 0, 0],
    [0, 0, 0, 0],
    [62, 1, 0, 0],
    [62, 1, 0, 0],
    [4095, 1, 1, 1],
    [4095, 1, 1, 0],
    [0, 0, 0, 0],
];

// The number of an event, from 0. It names a place in the trace, and no procedure.
#[derive(Clone, Copy, Debug, PartialEq, Eq)]
pub struct EventNumber(pub u32);

// An event. Its kind is a number, as C may give any to the writer; `Kind::try_from` says which kind that is.
#[derive(Clone, Copy, Debug, PartialEq, Eq)]
pub struct Event {
    pub kind: u32,
    pub operand: u32,
}

// The kinds that an event may have, in the order of their numbers, from 0.
#[derive(Clone, Copy, Debug, PartialEq, Eq)]
pub enum Kind {
    Spawn,
    Return,
    Sync,
    Lock,
    Unlock,
    Read,
    Write,
}

// Why no event stands at a place, each with the code that stands for it.
#[derive(Clone, Copy, Debug, PartialEq, Eq)]
pub enum Refusal {
    BytesEnd = 3,
    FormLong = 4,
    Reserved = 5,
    OperandLarge = 6,
}

// A number and the place after it.
#[derive(Clone, Copy, Debug, PartialEq, Eq)]
pub struct Number {
    pub value: u32,
    pub next: usize,
}

// An event and the place after it.
#[derive(Clone, Copy, Debug, PartialEq, Eq)]
pub struct Found {
    pub event: Event,
    pub next: usize,
}

// Why there is no event, and the place itself.
#[derive(Clone, Copy, Debug, PartialEq, Eq)]
pub struct Refused {
    pub why: Refusal,
    pub at: usize,
}

// The kind that a number names.
impl TryFrom<u32> for Kind {
    type Error = Refusal;

    ghost try_from_gives = { λ number result. result ≡ kind_named number };

    fn try_from(number: u32) -> Result<Kind, Refusal> {
        match number {
            0 => Ok(Kind::Spawn),
            1 => Ok(Kind::Return),
            2 => Ok(Kind::Sync),
            3 => Ok(Kind::Lock),
            4 => Ok(Kind::Unlock),
            5 => Ok(Kind::Read),
            6 => Ok(Kind::Write),
            _ => Err(Refusal::Reserved),
        }
    }
}

impl Refusal {
    pub fn code(self) -> u32
        ensures { result ≡ code_of self }
    {
        self as u32
    }
}

// The number that stands at a place.
#[tactic(auto, using(crate::proofs::Gathering::gathering))]
pub fn read_number(trace: &[u8], at: usize) -> Result<Number, Refusal>
    ensures { result ≡ number_at trace.now at }
{
    let mut next = at;
    let mut value = 0;
    let mut weight = 1;
    for followed in 0..MOST_GROUPS {
        let Some(&byte) = trace.get(next) else {
            return Err(Refusal::BytesEnd);
        };
        next += 1;
        value += u32::from(byte % 128) * weight;
        if byte < 128 {
            if byte == 0 && 0 < followed {
                return Err(Refusal::FormLong);
            }
            return Ok(Number { value, next });
        }
        weight *= 128;
    }
    Err(Refusal::FormLong)
}

// The event that stands at a place.
#[tactic(auto, unfolding(crate::specs::Events::judged, crate::specs::Events::reading_at))]
pub fn read_event(trace: &[u8], at: usize) -> Result<Found, Refused>
    ensures { result ≡ reading_at trace.now at }
{
    let refused = |why| Refused { why, at };
    let number = read_number(trace, at).map_err(refused)?;
    let event = Event {
        kind: number.value % 8,
        operand: number.value / 8,
    };
    Kind::try_from(event.kind).map_err(refused)?;
    if event.largest_operand() < event.operand {
        return Err(refused(Refusal::OperandLarge));
    }
    Ok(Found {
        event,
        next: number.next,
    })
}

impl Event {
    // What the table says of the kind in a column; a kind that is not in the table has zeros.
    #[tactic(auto, unfolding(crate::specs::Kinds::entry))]
    fn entry(self, column: usize) -> u32
        requires { column < 4 }
        ensures { result ≡ entry self column }
    {
        match KINDS.get(self.kind as usize) {
            Some(row) => row[column],
            None => 0,
        }
    }

    // Does the table say yes there?
    fn says_yes(self, column: usize) -> bool
        requires { column < 4 }
        ensures { result ≡ says_yes self column }
    {
        self.entry(column) == 1
    }

    // The largest operand that the kind may have.
    pub fn largest_operand(self) -> u32
        ensures { result ≡ largest_operand self }
    {
        self.entry(0)
    }

    // Is the event lawful with a lock held?
    pub fn lawful_holding(self) -> bool
        ensures { result ≡ lawful_holding self }
    {
        self.says_yes(1)
    }

    pub fn is_access(self) -> bool
        ensures { result ≡ is_access self }
    {
        self.says_yes(2)
    }

    // Does the access read, so that its lock set has the read mark?
    pub fn is_read(self) -> bool
        ensures { result ≡ is_read self }
    {
        self.says_yes(3)
    }

    // The location of an access.
    pub fn location(self) -> u32
        ensures { result ≡ location self }
    {
        self.operand
    }
}
