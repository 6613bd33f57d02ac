//! The rectangle of a level that a window query asks for.
ghost use Rattle.std.specs.Prelude.{◌≡◌, ◌<◌, ◌≤◌, ◌*◌, ◌⊎◌, true, false, Some, nat_lt, IfOk, IfErr, IfSome, IsTrue, length, slice_get};
ghost use Rattle.tiff_dir.specs.declared.query.Query.TheVariants.{Window, Info};
ghost use Rattle.tiff_dir.specs.declared.query.Pick.TheVariants as pick;
ghost use Rattle.tiff_dir.specs.declared.limits.TheConstants.{MAX_WINDOW_SAMPLES};
ghost use Rattle.tiff_dir.specs.Query.{scaled_down, scaled_up};
ghost use Rattle.tile_plan.specs.Levels.{rectangle_of, is_inside, has_columns, last_with_columns, outwards, IsAsked, IsRefusedBy};
ghost use Rattle.tile_plan.specs.Drawn.{IsDrawn, IsRefusal};

use tiff_dir::limits::MAX_WINDOW_SAMPLES;
use tiff_dir::{FileFault, Level, Pick, Query};

/// A window of a level, in the level's own pixels.
#[derive(Clone, Copy, Debug, PartialEq, Eq)]
pub struct Rectangle {
    /// The number of the level, 0 for the largest.
    pub level: usize,
    /// The first column, from 0.
    pub x: u32,
    /// The first row, from 0.
    pub y: u32,
    /// The number of columns.
    pub w: u32,
    /// The number of rows.
    pub h: u32,
}

/// Returns whether a window isn't empty and lies in the level.
fn is_inside(level: &Level, x: u32, y: u32, w: u32, h: u32) -> bool
    ensures { result ≡ is_inside level.now x y w h }
{
    let right = u64::from(x) + u64::from(w);
    let bottom = u64::from(y) + u64::from(h);
    (0 < w && 0 < h) && (right <= u64::from(level.width) && bottom <= u64::from(level.length))
}

fn product(a: u32, b: u32) -> u64
    ensures { result ≡ a * b }
{
    u64::from(a) * u64::from(b)
}

/// Returns whether `w` columns of a level of width `first` are at least `columns` columns of `level`.
fn has_columns(level: &Level, columns: u32, w: u32, first: u32) -> bool
    ensures { result ≡ has_columns columns w first level.now }
{
    product(columns, first) <= product(level.width, w)
}

/// Returns the number of the smallest level in which the window has `columns` columns or more. The window has `w`
/// columns in a level of width `first`. It is the last such level, or level 0 if there is none.
fn smallest(levels: &[Level], columns: u32, w: u32, first: u32) -> usize
    requires some { 0 < length levels.now }
    ensures within { result < length levels.now }
    ensures value { result ≡ last_with_columns levels.now columns w first (length levels.now) }
{
    let mut best = 0;
    for (n, level) in levels.iter().enumerate() {
        if has_columns(level, columns, w, first) {
            best = n;
        }
    }
    best
}

/// Returns the place that `at` has in another level, rounded down. `at` counts pixels along a side of level 0, which
/// has `first` of them. The same side of the other level has `side` pixels.
fn scaled_down(side: u32, first: u32, at: u32) -> u32
    requires some { 0 < first }
    requires within { at ≤ first }
    ensures value { result ≡ scaled_down side first at }
    ensures within { result ≤ side }
{
    (product(at, side) / u64::from(first)) as u32
}

/// Returns the same as `scaled_down`, rounded up.
fn scaled_up(side: u32, first: u32, at: u32) -> u32
    requires some { 0 < first }
    requires within { at ≤ first }
    ensures value { result ≡ scaled_up side first at }
    ensures within { result ≤ side }
{
    ((product(at, side) + u64::from(first) - 1) / u64::from(first)) as u32
}

/// Returns a window of the first level in the pixels of level `n`, rounded outwards.
fn scaled(first: &Level, n: usize, level: &Level, x: u32, y: u32, w: u32, h: u32) -> Rectangle
    requires { IsTrue (is_inside first.now x y w h) }
    ensures rectangle { rectangle_of result ≡ outwards n first.now level.now x y w h }
    ensures number { result.level ≡ n }
    ensures inside { IsTrue (is_inside level.now result.x result.y result.w result.h) }
{
    let left = scaled_down(level.width, first.width, x);
    let top = scaled_down(level.length, first.length, y);
    let right = scaled_up(level.width, first.width, x + w);
    let bottom = scaled_up(level.length, first.length, y + h);
    Rectangle {
        level: n,
        x: left,
        y: top,
        w: right - left,
        h: bottom - top,
    }
}

/// Returns level `n`. Fails with `Outside` where the window isn't in it, or there is no such level.
fn level_of(levels: &[Level], n: usize, x: u32, y: u32, w: u32, h: u32) -> Result<&Level, FileFault>
    ensures there { IfOk result (λ l. (slice_get levels.now n ≡ Some l.now) × IsTrue (is_inside l.now x y w h)) }
    ensures outside { IfErr result (λ fault. (fault ≡ FileFault.Outside)
        × IfSome (slice_get levels.now n) (λ l. is_inside l x y w h ≡ false)) }
{
    match levels.get(n) {
        Some(level) if is_inside(level, x, y, w, h) => Ok(level),
        _ => Err(FileFault::Outside),
    }
}

/// Returns whether `pixels` pixels of `samples` samples each have more samples than a window may have.
fn exceeds(pixels: u64, samples: u16) -> bool
    ensures { result ≡ nat_lt MAX_WINDOW_SAMPLES (pixels * samples) }
{
    match pixels.checked_mul(u64::from(samples)) {
        Some(n) => n > MAX_WINDOW_SAMPLES,
        None => true,
    }
}

/// Returns the rectangle. Fails with `TooLarge` where it has more samples than a window may have.
fn limited(rect: Rectangle, level: &Level) -> Result<Rectangle, FileFault>
    ensures good { IfOk result (λ r. (r ≡ rect) × (nat_lt MAX_WINDOW_SAMPLES (rect.w * rect.h * level.now.samples) ≡ false)) }
    ensures large { IfErr result (λ fault. (fault ≡ FileFault.TooLarge)
        × (nat_lt MAX_WINDOW_SAMPLES (rect.w * rect.h * level.now.samples) ≡ true)) }
{
    if exceeds(product(rect.w, rect.h), level.samples) {
        return Err(FileFault::TooLarge);
    }
    Ok(rect)
}

fn rect_of_level(
    levels: &[Level],
    n: u32,
    x: u32,
    y: u32,
    w: u32,
    h: u32,
) -> Result<Rectangle, FileFault>
    ensures asked { IfOk result (IsAsked levels.now (Window x y w h (pick.Level n))) }
    ensures refused { IfErr result (IsRefusedBy levels.now (Window x y w h (pick.Level n))) }
    ensures drawn { IfOk result (IsDrawn levels.now (Window x y w h (pick.Level n))) }
    ensures refusal { IfErr result (IsRefusal levels.now (Window x y w h (pick.Level n))) }
{
    let n = n as usize;
    let level = level_of(levels, n, x, y, w, h)?;
    limited(
        Rectangle {
            level: n,
            x,
            y,
            w,
            h,
        },
        level,
    )
}

fn rect_by_columns(
    levels: &[Level],
    columns: u32,
    x: u32,
    y: u32,
    w: u32,
    h: u32,
) -> Result<Rectangle, FileFault>
    ensures asked { IfOk result (IsAsked levels.now (Window x y w h (pick.Columns columns))) }
    ensures refused { IfErr result (IsRefusedBy levels.now (Window x y w h (pick.Columns columns))) }
    ensures drawn { IfOk result (IsDrawn levels.now (Window x y w h (pick.Columns columns))) }
    ensures refusal { IfErr result (IsRefusal levels.now (Window x y w h (pick.Columns columns))) }
{
    if columns == 0 {
        return Err(FileFault::Outside);
    }
    let first = level_of(levels, 0, x, y, w, h)?;
    let n = smallest(levels, columns, w, first.width);
    let level = &levels[n];
    limited(scaled(first, n, level, x, y, w, h), level)
}

/// Returns the rectangle that a window query asks for, in the pixels of its level. Fails with one of these faults:
/// - `Outside`: the window is empty, asks for 0 columns, or isn't in the level that its numbers are given in. So is the
/// query `Info`, which asks for no window.
/// - `TooLarge`: the rectangle has more than 4,194,304 samples.
///
/// ```
/// let window = Query::Window { x: 5, y: 0, w: 3, h: 1, pick: Pick::Columns(1) };
/// // In a level of half the sides: columns 2 and 3.
/// let rectangle = rect(&levels, window)?;
/// assert_eq!((rectangle.x, rectangle.w), (2, 2));
/// ```
pub fn rect(levels: &[Level], query: Query) -> Result<Rectangle, FileFault>
    ensures asked { IfOk result (IsAsked levels.now query) }
    ensures refused { IfErr result (λ fault. (query ≡ Info) ⊎ IsRefusedBy levels.now query fault) }
    ensures drawn { IfOk result (IsDrawn levels.now query) }
    ensures refusal { IfErr result (IsRefusal levels.now query) }
{
    match query {
        Query::Window { x, y, w, h, pick } => match pick {
            Pick::Level(n) => rect_of_level(levels, n, x, y, w, h),
            Pick::Columns(columns) => rect_by_columns(levels, columns, x, y, w, h),
        },
        Query::Info => Err(FileFault::Outside),
    }
}
