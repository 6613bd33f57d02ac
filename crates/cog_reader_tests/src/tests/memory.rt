//! Each test passes with ample memory, and wherever one allocation is refused.
ghost use Rattle.std.specs.Prelude.{◌<◌, ◌≤◌, IfOk, OnOk, length};
ghost use Rattle.cog_reader.specs.Reader.{steps_of, IsWanted, Wants};

use super::image::{Image, part};
use cog_reader::{Outcome, Reader};
use cog_reader_support::{FACTS_OF_F3, Fixture, Want, is_wanted, of_level, window};
use std::process::Abort;
use std::test::Fail;
use tiff_dir::{FileFault, Memory, Pick, Query, Span};

/// Returns the range that is wanted. Asks again where memory ran out.
fn need_again(reader: &mut Reader) -> Result<Option<Span>, Memory>
    ensures wants { IfOk result (Wants reader.new) }
    ensures steps { steps_of reader.new ≤ steps_of reader.old }
{
    match reader.need() {
        Err(Memory) => reader.need(),
        Ok(span) => Ok(span),
    }
}

/// Gives the bytes. Gives them again where memory ran out.
fn give_again(reader: &mut Reader, bytes: &[u8]) -> Result<(), Memory>
    requires { IsWanted reader.old (length bytes.now) }
    ensures { OnOk result (steps_of reader.new < steps_of reader.old) }
{
    match reader.give(bytes) {
        Err(Memory) => reader.give(bytes),
        Ok(()) => Ok(()),
    }
}

/// Gives the reader what it wants. Each call is made again where memory ran out.
fn read_again(reader: &mut Reader, file: &[u8]) -> Result<(), Memory> {
    while let Some(span) = need_again(reader)? {
        let Some(bytes) = part(file, span) else {
            return Ok(());
        };
        give_again(reader, bytes)?;
    }
    Ok(())
}

/// Returns whether the outcome is the whole of level 0 of f3. Each sample of tile t, of two by two, is 16 + t.
fn is_whole_level_0(outcome: Option<&Outcome>) -> bool {
    let Some(Outcome::Window(window)) = outcome else {
        return false;
    };
    let mut samples = window.pixels.iter().enumerate();
    (window.w, window.h, window.pixels.len()) == (32, 32, 1024)
        && samples.all(|(at, sample)| usize::from(*sample) == 16 + at / 512 * 2 + at % 32 / 16)
}

/// Returns whether the outcome is the whole of level 1 of f3. Each sample of row y is y.
fn is_whole_level_1(outcome: Option<&Outcome>) -> bool {
    let Some(Outcome::Window(window)) = outcome else {
        return false;
    };
    let mut samples = window.pixels.iter().enumerate();
    (window.w, window.h, window.pixels.len()) == (16, 16, 256)
        && samples.all(|(at, sample)| usize::from(*sample) == at / 16)
}

/// Returns whether the outcome is that of the query, which is one of those of f3 that are asked here.
fn is_right(outcome: Option<&Outcome>, query: Query) -> bool {
    if query == window((0, 0, 32, 32, Pick::Columns(16))) {
        is_whole_level_1(outcome)
    } else if query == window((0, 0, 32, 32, Pick::Columns(17))) {
        is_whole_level_0(outcome)
    } else if query == Query::Info {
        is_wanted(outcome, Want::Info(FACTS_OF_F3))
    } else if query == of_level(15, 15, 2, 2, 0) {
        let bytes = [0x10, 0x11, 0x12, 0x13];
        is_wanted(outcome, Want::Window(2, 2, 1, 8, &bytes))
    } else {
        is_wanted(outcome, Want::Window(1, 3, 1, 8, &[4, 5, 6]))
    }
}

/// Returns a window of plain tiles, one of a packed tile, the whole of each level by its columns, and Info.
fn queries() -> [Query; 5] {
    [
        of_level(15, 15, 2, 2, 0),
        of_level(3, 4, 1, 3, 1),
        window((0, 0, 32, 32, Pick::Columns(16))),
        window((0, 0, 32, 32, Pick::Columns(17))),
        Query::Info,
    ]
}

/// Expects that the call that runs out of memory is made again, and goes on.
#[test]
fn goes_on_after_refused_memory(rt: HostRuntime) -> Result<(), Fail> {
    let Ok(file) = Fixture::F3.file(rt.alloc()) else {
        return Ok(());
    };
    let mut reader = Reader::new(rt.alloc(), file.len() as u64);
    for query in queries() {
        reader.open(query);
        assert!(rt; read_again(&mut reader, &file).is_ok(), "{query:?}");
        assert!(rt; is_right(reader.outcome(), query), "{query:?}");
    }
    Ok(())
}

/// Expects the outcome of the query, or that it fails because memory ran out. Returns whether it fails.
fn is_refused(rt: &(impl Abort + AllocGlobal), image: &mut Image, query: Query) -> bool {
    match image.answer(rt.alloc(), query) {
        Ok(answer) => {
            assert!(rt; is_right(answer.outcome, query), "{query:?}");
            false
        }
        Err(Memory) => true,
    }
}

/// Expects that a query that ran out of memory is answered where it is asked again.
#[test]
fn answers_a_query_that_is_asked_again(rt: HostRuntime) -> Result<(), Fail> {
    let Ok(file) = Fixture::F3.file(rt.alloc()) else {
        return Ok(());
    };
    let mut image = Image::new(rt.alloc(), file);
    for query in queries() {
        if is_refused(&rt, &mut image, query) {
            assert!(rt; !is_refused(&rt, &mut image, query), "{query:?}");
        }
    }
    Ok(())
}
