//! Windows of the test files, and their outcomes.
use crate::files::Fixture::{self, F1, F1m, F2, F2b, F3, F4, F5, F6, F6m};
use crate::wanted::Want::{Fault, Window};
use crate::wanted::{Numbers, Want};
use tiff_dir::FileFault::{Outside, Packet, TileSize, TooManyDirs, Unsupported};
use tiff_dir::Pick::{Columns, Level};

/// The outcome of the window of two rows in a file of one tile.
const SMALL: Want<'static> = Window(3, 2, 1, 8, &[0x12, 0x13, 0x14, 0x22, 0x23, 0x24]);

/// The same in samples of 16 bits, with the most significant byte first.
const DEEP: Want<'static> = Window(
    3,
    2,
    1,
    16,
    &[
        0x80, 0x12, 0x80, 0x13, 0x80, 0x14, 0x80, 0x22, 0x80, 0x23, 0x80, 0x24,
    ],
);

/// The outcome of the window where three of f4's tiles meet a fourth.
const CORNER: Want<'static> = Window(
    3,
    3,
    3,
    8,
    &[
        0x80, 0x80, 0x80, 0x0f, 0x01, 0xff, 0x80, 0x80, 0x80, 0x80, 0x80, 0x80, 0x00, 0x03, 0xff,
        0x80, 0x80, 0x80, 0x80, 0x80, 0x80, 0x01, 0x03, 0xff, 0x80, 0x80, 0x80,
    ],
);

const OUTSIDE: Want<'static> = Fault(Outside);

const DAMAGED: Want<'static> = Fault(Packet);

const COMPRESSED: Want<'static> = Fault(Unsupported(259));

/// A file, bytes that are put at a place in it, a window of it, and the outcome.
pub type WindowRow = (Fixture, (usize, &'static [u8]), Numbers, Want<'static>);

/// Windows of unchanged files.
pub const WINDOWS: [(Fixture, Numbers, Want<'static>); 20] = [
    (F1, (2, 1, 3, 2, Level(0)), SMALL),
    (F1m, (2, 1, 3, 2, Level(0)), SMALL),
    (F1, (15, 15, 1, 1, Level(0)), Window(1, 1, 1, 8, &[0xff])),
    (F1, (16, 0, 1, 1, Level(0)), OUTSIDE),
    (F1, (0, 0, 0, 1, Level(0)), OUTSIDE),
    (F1, (4294967295, 0, 2, 1, Level(0)), OUTSIDE),
    (F1, (0, 0, 1, 1, Level(1)), OUTSIDE),
    (
        F2,
        (240, 240, 16, 16, Level(0)),
        Window(16, 16, 1, 8, &[0xff; 256]),
    ),
    (
        F2b,
        (240, 240, 16, 16, Level(0)),
        Window(16, 16, 1, 8, &[0; 256]),
    ),
    (
        F3,
        (15, 15, 2, 2, Level(0)),
        Window(2, 2, 1, 8, &[0x10, 0x11, 0x12, 0x13]),
    ),
    (F3, (5, 0, 3, 1, Columns(1)), Window(2, 1, 1, 8, &[0, 0])),
    (F3, (0, 0, 1, 1, Level(2)), OUTSIDE),
    (F3, (0, 0, 1, 1, Columns(0)), OUTSIDE),
    (F4, (15, 15, 3, 3, Level(0)), CORNER),
    (F4, (17, 0, 4, 1, Level(0)), OUTSIDE),
    // The window is in two groups, with two of its tiles in each.
    (
        F5,
        (255, 767, 2, 2, Level(0)),
        Window(2, 2, 1, 8, &[10, 11, 15, 16]),
    ),
    (F6, (2, 1, 3, 2, Level(0)), DEEP),
    (F6m, (2, 1, 3, 2, Level(0)), DEEP),
    (
        F6,
        (15, 15, 1, 1, Level(0)),
        Window(1, 1, 1, 16, &[0x80, 0xff]),
    ),
    (
        F6m,
        (15, 15, 1, 1, Level(0)),
        Window(1, 1, 1, 16, &[0x80, 0xff]),
    ),
];

/// Windows of files with changed bytes.
pub const CHANGED: [WindowRow; 9] = [
    // A tag that isn't named is passed over, whatever its type.
    (
        F3,
        (118, &[0x0f, 0x83, 0xff]),
        (15, 15, 1, 1, Level(0)),
        Window(1, 1, 1, 8, &[0x10]),
    ),
    // The last packet of the second level is changed. Its window is damaged, and those of the first level aren't.
    (F3, (1454, &[0xf2]), (0, 0, 1, 1, Level(1)), DAMAGED),
    (
        F3,
        (1454, &[0xf2]),
        (0, 0, 1, 1, Level(0)),
        Window(1, 1, 1, 8, &[0x10]),
    ),
    // A packet of the first tile crosses its row.
    (F4, (164, &[3]), (0, 0, 1, 1, Level(0)), DAMAGED),
    (
        F4,
        (164, &[3]),
        (16, 0, 1, 1, Level(0)),
        Window(1, 1, 3, 8, &[0x00, 0x01, 0xff]),
    ),
    // A compression that isn't accepted.
    (F1, (54, &[5]), (0, 0, 1, 1, Level(0)), COMPRESSED),
    (F6m, (55, &[5]), (0, 0, 1, 1, Level(0)), COMPRESSED),
    (F1, (118, &[8]), (0, 0, 1, 1, Level(0)), Fault(TooManyDirs)),
    (
        F1,
        (114, &[255, 0]),
        (0, 0, 1, 1, Level(0)),
        Fault(TileSize),
    ),
];
