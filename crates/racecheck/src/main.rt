// The program: reads a trace from standard input, has it checked, and prints the numbers returned and a line for each race.
#![tactic(auto)]

ghost use Rattle.std.specs.Prelude.{length};
ghost use Rattle.std.specs.Io.{ReadsAtMost};

use checker::{Answer, NUMBERS, PIECE};
use std::io;
use std::io::Read;

// The longest trace that is taken, in bytes.
const MOST_BYTES: usize = 65536;

// The most race lines that are printed.
const MOST_LINES: usize = 1024;

// Prints the numbers returned, each after its name, and then each race of the report, as many as are printed at most:
// location, earlier event, later event. Each line is written at once.
fn print_lines(
    rt: &impl Print,
    answer: Answer,
    report: &[[u32; NUMBERS]; MOST_LINES],
) -> io::Result<()> {
    let Answer {
        code,
        events,
        offset,
        races,
        visits,
        most,
    } = answer;
    println!(rt;
        "code {code} events {events} offset {offset} races {races} visits {visits} most {most}"
    )?;
    for [location, earlier, later] in report.iter().take(races as usize) {
        println!(rt; "race {location} {earlier} {later}")?;
    }
    Ok(())
}

// Lends the working room for one trace, arrays as 01 asks for them, and prints what the call returns and reports.
fn check_and_print(rt: &impl Print, trace: &[u8]) -> io::Result<()> {
    let mut report = [[0u32; NUMBERS]; MOST_LINES];
    let mut heads = [0u32; PIECE];
    let mut links = [0u32; PIECE];
    let mut events = [0u32; PIECE];
    let mut procedures = [0u32; PIECE];
    let mut sets = [0u64; PIECE];
    let mut starts = [0u32; PIECE];
    let mut joins = [0u32; PIECE];
    let answer = checker::check(
        trace,
        report.as_flattened_mut(),
        &mut heads,
        &mut links,
        &mut events,
        &mut procedures,
        &mut sets,
        &mut starts,
        &mut joins,
    );
    print_lines(rt, answer, &report)
}

// Reads until the buffer is full or the input ends, each time as much as is left, and answers how many bytes it put at the start of
// the buffer. (`io::copy` reads 8,192 bytes at most at a time, which cuts what comes as one message.)
fn read_full(reader: &mut impl Read, buffer: &mut [u8]) -> io::Result<usize>
    ensures { ReadsAtMost result buffer.new }
{
    let mut done = 0;
    while done < buffer.len() {
        let count = reader.read(&mut buffer[done..])?;
        if count == 0 {
            break;
        }
        done += count;
    }
    Ok(done)
}

// Reads the trace, and one byte more if there is one, and has it checked, unless it is too long.
fn main(rt: HostRuntime) -> io::Result<()> {
    let mut trace = [0u8; MOST_BYTES + 1];
    let length = read_full(&mut rt.stdin(), &mut trace)?;
    if length > MOST_BYTES {
        return println!(rt; "too long");
    }
    check_and_print(&rt, &trace[..length])
}
