//! A walk that refused a range goes on from where it was.
ghost use Rattle.std.specs.Prelude.{IsTrue};
ghost use Rattle.tiff_dir.specs.Walk.{HasEnded};

use assertion_support::expect_eq;
use fixtures_support::f1;
use reference_support::{Next, take_next};
use std::test::Fail;
use tiff_dir::{FileFault, Memory, Walk};

/// Returns whether the walk has ended, by what it wants of a file of any length.
fn has_ended(walk: &Walk) -> bool
    ensures { IsTrue result → HasEnded walk.now }
{
    matches!(walk.need(u64::MAX), Ok(None))
}

/// Returns how many levels a walk has, if it has ended.
fn level_count(walk: &Walk) -> Option<usize> {
    if has_ended(walk) {
        Some(walk.levels().len())
    } else {
        None
    }
}

#[test]
fn stays_as_before_after_a_fault(rt: HostRuntime) -> Result<(), Fail> {
    let file = f1(rt.alloc())?;
    let mut damaged = f1(rt.alloc())?;
    if let Some(compression) = damaged.get_mut(54) {
        *compression = 5;
    }
    let mut walk = Walk::new(rt.alloc());
    for _ in 0..2 {
        assert!(rt; matches!(take_next(&mut walk, &damaged), Ok(Next::Went(_))));
    }
    let (wanted, given) = (walk.need(378), walk.given());
    for _ in 0..2 {
        let answer = take_next(&mut walk, &damaged);
        expect_eq!(rt; answer, Ok(Next::Refused(FileFault::Unsupported(259))));
        expect_eq!(rt; walk.need(378), wanted);
        expect_eq!(rt; walk.given(), given);
        assert!(rt; !has_ended(&walk));
    }
    assert!(rt; matches!(take_next(&mut walk, &file), Ok(Next::Went(_))));
    expect_eq!(rt; take_next(&mut walk, &file), Ok(Next::Ended));
    expect_eq!(rt; level_count(&walk), Some(1));
    Ok(())
}

// Passes with ample memory, and wherever memory is refused once. After the refusal the walk goes on from where it was.
#[test]
fn goes_on_after_a_refusal_for_memory(rt: HostRuntime) -> Result<(), Fail> {
    let Ok(file) = f1(rt.alloc()) else {
        return Ok(());
    };
    let mut walk = Walk::new(rt.alloc());
    for _ in 0..5 {
        let (wanted, given) = (walk.need(378), walk.given());
        match take_next(&mut walk, &file) {
            Ok(Next::Went(_)) => expect_eq!(rt; Some(walk.given()), given.checked_add(1)),
            Ok(Next::Ended) => {}
            Ok(Next::Refused(_)) => return Err(Fail::new("a fault")),
            Err(Memory) => {
                expect_eq!(rt; walk.given(), given);
                expect_eq!(rt; walk.need(378), wanted);
            }
        }
    }
    expect_eq!(rt; level_count(&walk), Some(1));
    Ok(())
}
