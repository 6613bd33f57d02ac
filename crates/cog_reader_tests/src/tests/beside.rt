//! The reader beside the plain program's faults. It reports a fault that stands, and it reports a window or Info exactly where none does.
use assertion_support::expect_eq;
use cog_reader::{Outcome, read_file};
use cog_reader_support::Fixture;
use faults_support::{faults, faults_of_directories};
use fixtures_support::Numbers;
use std::process::Abort;
use std::test::Fail;
use tiff_dir::{Pick, Query};

const FIXTURES: [Fixture; 6] = [
    Fixture::F1,
    Fixture::F1m,
    Fixture::F3,
    Fixture::F4,
    Fixture::F6,
    Fixture::F6m,
];

/// Windows of both levels, one past the sides of the smaller files, and Info.
const QUERIES: [Query; 4] = [
    Query::Window {
        x: 3,
        y: 2,
        w: 12,
        h: 14,
        pick: Pick::Level(0),
    },
    Query::Window {
        x: 0,
        y: 0,
        w: 17,
        h: 17,
        pick: Pick::Columns(1),
    },
    Query::Window {
        x: 0,
        y: 0,
        w: 1,
        h: 1,
        pick: Pick::Level(1),
    },
    Query::Info,
];

/// Compares the reader's outcome of a query of the file with the faults that stand. Returns whether the outcome is no fault.
fn compare<R: Abort + AllocGlobal>(
    rt: &R,
    file: &[u8],
    query: Query,
    name: &str,
) -> Result<bool, Fail> {
    let stand = match faults(rt.alloc(), file, query)? {
        Some(stand) => stand,
        None => faults_of_directories(rt.alloc(), file)?,
    };
    let outcome = read_file(rt.alloc(), file, query);
    match outcome.ok().ok_or("no memory")? {
        Outcome::Fault(fault) => {
            assert!(rt;
                stand.contains(&fault),
                "{name}: {query:?}: {fault:?} is none of {stand:?}"
            );
            Ok(false)
        }
        Outcome::Window(_) | Outcome::Info(_) => {
            assert!(rt; stand.is_empty(), "{name}: {query:?}: {stand:?} stand");
            Ok(true)
        }
    }
}

/// Asks each query of a file, and compares.
fn compare_queries<R: Abort + AllocGlobal>(rt: &R, file: &[u8], name: &str) -> Result<(), Fail> {
    for query in QUERIES {
        compare(rt, file, query, name)?;
    }
    Ok(())
}

/// Asks a random query of each of 1,700 changed files. Each is a fixture with one or two of its first 400 bytes changed.
fn compare_changed<R: Abort + AllocGlobal>(
    rt: &R,
    fixture: Fixture,
    seed: u64,
) -> Result<(), Fail> {
    let whole = fixture.file(rt.alloc())?;
    let name = format!(in rt.alloc(); "{fixture:?} changed by seed {seed}")?;
    let mut numbers = Numbers::new(seed);
    for _ in 0..1_700 {
        let mut file = Vec::from_slice(rt.alloc(), &whole)?;
        for _ in 0..1 + numbers.below(2) {
            let at = numbers.below(400);
            if let Some(byte) = file.get_mut(at) {
                *byte = numbers.byte();
            }
        }
        compare(rt, &file, QUERIES[numbers.below(4)], &name)?;
    }
    Ok(())
}

#[test]
fn tells_a_fault_of_a_changed_file_that_stands(rt: HostRuntime) -> Result<(), Fail> {
    for (fixture, seed) in FIXTURES.iter().zip(1u64..) {
        compare_changed(&rt, *fixture, seed)?;
    }
    Ok(())
}

#[test]
fn tells_a_fault_of_a_front_that_stands(rt: HostRuntime) -> Result<(), Fail> {
    for fixture in FIXTURES {
        let whole = fixture.file(rt.alloc())?;
        for len in 0..whole.len() {
            if len % 23 == 0 {
                let name = format!(in rt.alloc(); "the first {len} bytes of {fixture:?}")?;
                compare_queries(&rt, &whole[..len], &name)?;
            }
        }
    }
    Ok(())
}

#[test]
fn answers_each_query_of_a_fixture_or_is_outside(rt: HostRuntime) -> Result<(), Fail> {
    let mut answered = 0u32;
    for fixture in FIXTURES {
        let file = fixture.file(rt.alloc())?;
        let name = format!(in rt.alloc(); "{fixture:?}")?;
        for query in QUERIES {
            if compare(&rt, &file, query, &name)? {
                answered = answered.saturating_add(1);
            }
        }
    }
    // f3 answers all four queries. f4 answers all but that of level 1. The others answer all but that and the window of 17 by 17.
    expect_eq!(rt; answered, 4 + 3 + 4 * 2);
    Ok(())
}
