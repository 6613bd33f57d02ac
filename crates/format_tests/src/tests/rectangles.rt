//! The rectangles of window queries.
use crate::tests::image::Image;
use assertion_support::expect_eq;
use fixtures_support::{Field, FieldType, Order, Values, f3, push_directory, push_header};
use std::process::Abort;
use std::test::Fail;
use tiff_dir::{FileFault, Level, Pick, Query};
use tile_plan::{Rect, rect};

/// The numbers of a window, and its pick.
type Asked = (u32, u32, u32, u32, Pick);

/// The level, the left and the top side, the width and the height of a rectangle.
type Numbers = (usize, u32, u32, u32, u32);

/// Rows of windows of levels of 32 by 32 and of 16 by 16 samples.
#[rattlefmt::skip]
const TWO_LEVELS: [(Asked, Result<Numbers, FileFault>); 22] = [
    ((15, 15, 2, 2, Pick::Level(0)), Ok((0, 15, 15, 2, 2))),
    ((0, 0, 32, 32, Pick::Level(0)), Ok((0, 0, 0, 32, 32))),
    ((31, 31, 1, 1, Pick::Level(0)), Ok((0, 31, 31, 1, 1))),
    ((0, 0, 33, 1, Pick::Level(0)), Err(FileFault::Outside)),
    ((0, 1, 1, 32, Pick::Level(0)), Err(FileFault::Outside)),
    ((32, 0, 1, 1, Pick::Level(0)), Err(FileFault::Outside)),
    ((0, 0, 0, 1, Pick::Level(0)), Err(FileFault::Outside)),
    ((0, 0, 1, 0, Pick::Level(0)), Err(FileFault::Outside)),
    ((4294967295, 0, 1, 1, Pick::Level(0)), Err(FileFault::Outside)),
    ((0, 4294967295, 1, 4294967295, Pick::Level(0)), Err(FileFault::Outside)),
    ((0, 0, 16, 16, Pick::Level(1)), Ok((1, 0, 0, 16, 16))),
    ((0, 0, 17, 1, Pick::Level(1)), Err(FileFault::Outside)),
    ((0, 0, 1, 1, Pick::Level(2)), Err(FileFault::Outside)),
    ((0, 0, 1, 1, Pick::Level(4294967295)), Err(FileFault::Outside)),
    ((0, 0, 32, 32, Pick::Columns(16)), Ok((1, 0, 0, 16, 16))),
    ((0, 0, 32, 32, Pick::Columns(17)), Ok((0, 0, 0, 32, 32))),
    ((0, 0, 32, 32, Pick::Columns(4294967295)), Ok((0, 0, 0, 32, 32))),
    ((5, 0, 3, 1, Pick::Columns(1)), Ok((1, 2, 0, 2, 1))),
    ((31, 31, 1, 1, Pick::Columns(0)), Err(FileFault::Outside)),
    ((31, 31, 1, 1, Pick::Columns(1)), Ok((0, 31, 31, 1, 1))),
    ((30, 31, 2, 1, Pick::Columns(1)), Ok((1, 15, 15, 1, 1))),
    ((0, 0, 33, 1, Pick::Columns(1)), Err(FileFault::Outside)),
];

fn compare(rt: &impl Abort, levels: &[Level], rows: &[(Asked, Result<Numbers, FileFault>)]) {
    for ((x, y, w, h, pick), want) in rows {
        let query = Query::Window {
            x: *x,
            y: *y,
            w: *w,
            h: *h,
            pick: *pick,
        };
        let answer = rect(levels, query);
        let want = want.map(|(level, x, y, w, h)| Rect { level, x, y, w, h });
        expect_eq!(rt; answer, want, "{query:?}");
    }
}

#[test]
fn finds_rectangles_of_two_levels(rt: HostRuntime) -> Result<(), Fail> {
    let levels = Image::new(rt.alloc(), f3(rt.alloc())?)?.levels;
    compare(&rt, &levels, &TWO_LEVELS);
    expect_eq!(rt; rect(&levels, Query::Info), Err(FileFault::Outside));
    Ok(())
}

/// The fields of a level of 4,096 by 4,096 samples.
const LARGE: [Field; 9] = [
    Field {
        tag: 256,
        values: Values::Short(4096),
    },
    Field {
        tag: 257,
        values: Values::Short(4096),
    },
    Field {
        tag: 258,
        values: Values::Short(8),
    },
    Field {
        tag: 259,
        values: Values::Short(1),
    },
    Field {
        tag: 262,
        values: Values::Short(1),
    },
    Field {
        tag: 322,
        values: Values::Short(256),
    },
    Field {
        tag: 323,
        values: Values::Short(256),
    },
    Field {
        tag: 324,
        values: Values::At {
            kind: FieldType::Long,
            count: 256,
            first: 122,
        },
    },
    Field {
        tag: 325,
        values: Values::At {
            kind: FieldType::Long,
            count: 256,
            first: 122,
        },
    },
];

#[rattlefmt::skip]
const LIMITS: [(Asked, Result<Numbers, FileFault>); 6] = [
    ((0, 0, 2048, 2048, Pick::Level(0)), Ok((0, 0, 0, 2048, 2048))),
    ((0, 0, 2049, 2048, Pick::Level(0)), Err(FileFault::TooLarge)),
    ((0, 0, 4096, 1024, Pick::Level(0)), Ok((0, 0, 0, 4096, 1024))),
    ((0, 0, 4096, 1025, Pick::Level(0)), Err(FileFault::TooLarge)),
    ((0, 0, 4096, 4097, Pick::Level(0)), Err(FileFault::Outside)),
    ((0, 0, 2048, 2049, Pick::Columns(2048)), Err(FileFault::TooLarge)),
];

#[test]
fn refuses_windows_past_the_limit(rt: HostRuntime) -> Result<(), Fail> {
    let mut file = Vec::new(rt.alloc());
    push_header(&mut file, Order::Little, 8)?;
    push_directory(&mut file, Order::Little, &LARGE, 0)?;
    let levels = Image::new(rt.alloc(), file)?.levels;
    compare(&rt, &levels, &LIMITS);
    Ok(())
}
