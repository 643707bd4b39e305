// Replays every case of the data folder through the library's one call, and compares the log with the expected one.
// A set of cases is a folder with a file INDEX.tsv, whose first column names the cases, and NAME.in and NAME.log of
// each. Its counters count what calls answered.
#![tactic(auto)]

ghost use Rattle.std.specs.Prelude.{◌≡◌, IfOk, MatchOption};
ghost use Rattle.logs.specs.Log.{log_of};

use anyhow::anyhow;
use logs::log::log;
use std::alloc::{AllocError, Global};
use std::{fs, io};

const SETS: [&str; 3] = ["reference", "examples", "limits"];

// The number, from 1, of the line in which two logs first differ.
fn first_difference(found: &[u8], expected: &[u8]) -> usize {
    let ends = found
        .iter()
        .zip(expected)
        .take_while(|(a, b)| a == b)
        .filter(|(a, _)| **a == b'\n')
        .count();
    ends.saturating_add(1)
}

// Prints the line of a log that has this number, from 1, or nothing where the log ends before.
fn print_line(rt: &HostRuntime, title: &str, log: &str, number: usize) -> io::Result<()> {
    match log.split('\n').nth(number.saturating_sub(1)) {
        Some(line) => println!(rt; "{title}: {line}"),
        None => Ok(()),
    }
}

// Prints the first line that differs, as it was found and as it is expected.
fn print_difference(
    rt: &HostRuntime,
    case: &str,
    found: &[u8],
    expected: &[u8],
) -> anyhow::Result<()> {
    let number = first_difference(found, expected);
    println!(rt; "{case}: line {number} differs")?;
    let heap = rt.alloc();
    print_line(rt, "found", &String::from_utf8_lossy(heap, found)?, number)?;
    print_line(
        rt,
        "expected",
        &String::from_utf8_lossy(heap, expected)?,
        number,
    )?;
    Ok(())
}

// The log of an input, where it is not the expected one. With none, the expected log is the one that the rules define.
fn other_log(heap: Global, input: &[u8], expected: &[u8]) -> Result<Option<Vec<u8>>, AllocError>
    ensures { IfOk result (λ other. MatchOption other (log_of input.now ≡ expected.now) (λ v. v.items ≡ log_of input.now)) }
{
    let found = log(heap, input)?;
    if found.as_slice() == expected {
        return Ok(None);
    }
    Ok(Some(found))
}

// Whether the log of a case's input is the expected one.
fn replay_case(rt: &HostRuntime, case: &str) -> anyhow::Result<bool> {
    let heap = rt.alloc();
    let input = fs::read(rt, format!(in heap; "{case}.in")?)?;
    let expected = fs::read(rt, format!(in heap; "{case}.log")?)?;
    match other_log(heap, &input, &expected)? {
        None => Ok(true),
        Some(found) => {
            print_difference(rt, case, &found, &expected)?;
            Ok(false)
        }
    }
}

// The name of the case that a row of an index describes.
fn case_name(row: &str) -> &str {
    row.split_once('\t').map_or(row, |(name, _)| name)
}

// Replays a set and prints how many cases it has and how many agree; whether all do.
fn replay_set(rt: &HostRuntime, set: &str) -> anyhow::Result<bool> {
    let heap = rt.alloc();
    let index = fs::read_to_string(rt, format!(in heap; "{set}/INDEX.tsv")?)?;
    let mut cases = 0u32;
    let mut agree = 0u32;
    // The first row has the headings.
    for row in index.lines().skip(1) {
        let name = case_name(row);
        let case = format!(in heap; "{set}/{name}")?;
        cases = cases.saturating_add(1);
        if replay_case(rt, &case)? {
            agree = agree.saturating_add(1);
        }
    }
    println!(rt; "{set}: {cases} cases, {agree} agree")?;
    Ok(agree == cases)
}

// Replays all sets, and refuses where a case of any does not agree.
fn run(rt: &HostRuntime) -> anyhow::Result<()> {
    let mut well = true;
    for set in SETS {
        well = replay_set(rt, set)? && well;
    }
    if well {
        Ok(())
    } else {
        Err(anyhow!("a log is not the expected one"))
    }
}

fn main(rt: HostRuntime) -> anyhow::Result<()> {
    run(&rt)
}
