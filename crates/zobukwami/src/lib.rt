// The checker and the writer under the names by which C calls them, with the same contracts.
#![tactic(auto)]

ghost use Rattle.std.specs.Prelude.{◌∷◌, []};
ghost use Rattle.checker.specs.Call.{room, lent, left};
ghost use Rattle.checker.specs.Contract.{Contract};
ghost use Rattle.writer.specs.Lists.{events_in};
ghost use Rattle.writer.specs.Contract.{Wrote};

use checker::{Answer, check};
use writer::{Written, write_event, write_events};

#[unsafe(no_mangle)]
pub extern "C" fn zobukwami_check(
    trace: &[u8],
    report: &mut [u32],
    heads: &mut [u32],
    links: &mut [u32],
    events: &mut [u32],
    procedures: &mut [u32],
    sets: &mut [u64],
    starts: &mut [u32],
    joins: &mut [u32],
) -> Answer
    ensures contract { Contract
        (lent trace.now report.old
        (room heads.old links.old events.old procedures.old sets.old starts.old
        joins.old))
        (left result report.new
        (room heads.new links.new events.new procedures.new sets.new starts.new
        joins.new)) }
{
    check(
        trace, report, heads, links, events, procedures, sets, starts, joins,
    )
}

#[unsafe(no_mangle)]
pub extern "C" fn zobukwami_write_event(
    buffer: &mut [u8],
    at: usize,
    kind: u32,
    operand: u32,
) -> Written
    ensures { Wrote (record { kind = kind; operand = operand } ∷ []) buffer.old at result buffer.new }
{
    write_event(buffer, at, kind, operand)
}

#[unsafe(no_mangle)]
pub extern "C" fn zobukwami_write_events(buffer: &mut [u8], at: usize, events: &[u32]) -> Written
    ensures { Wrote (events_in events.now) buffer.old at result buffer.new }
{
    write_events(buffer, at, events)
}
