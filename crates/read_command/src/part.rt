//! Parts of a level: their windows and world files, by what Info says of the file.
ghost use Rattle.std.specs.Prelude.{◌≡◌, IfOk, slice_get};
ghost use Rattle.std.specs.Option.{unwrap_or};
ghost use Rattle.read_command.specs.Exchanges.{IsWindowFor};
ghost use Rattle.read_command.specs.Part.{area_window, part_given, whole_window, with_world};

use cog_client::{Info, Query};
use text_description::{Bounds, NoPixels, WorldFile, level_sides, window_covering, world_file};
use tiff_dir::Pick;

/// Says which pixels of a level are asked for.
#[derive(Clone, Copy, Debug, PartialEq)]
pub enum Area {
    /// All of them.
    Whole,
    /// Those that a rectangle in the file's own coordinates meets.
    Bounds(Bounds),
    /// Those of a window, in pixels of the level.
    Pixels { x: u32, y: u32, w: u32, h: u32 },
}

/// Says which part of a level is asked for.
#[derive(Clone, Copy, Debug, PartialEq)]
pub struct Part {
    pub area: Area,
    pub level: u32,
    /// Whether its world file is asked for, too.
    pub has_world: bool,
}

/// Holds what Info gives for a part: its window, and its world file if one is asked for.
#[derive(Clone, Copy, Debug, PartialEq)]
pub struct Given {
    pub window: Query,
    pub world: Option<WorldFile>,
}

/// Says why Info gives nothing for a part.
#[derive(Clone, Copy, Debug, PartialEq, Eq)]
pub enum NotGiven {
    /// A rectangle gives no window, for this reason.
    NoWindow(NoPixels),
    /// A world file is asked for, and the file doesn't say where its pixels lie.
    NoWorld,
}

/// Returns the window that is the whole of a level, or one pixel of a level that the file doesn't have.
fn whole_window(info: &Info, level: u32) -> Query
    ensures { result ≡ whole_window (slice_get info.now.sides.items level) level }
{
    let (w, h) = level_sides(info, level).unwrap_or((1, 1));
    let (x, y, pick) = (0, 0, Pick::Level(level));
    Query::Window { x, y, w, h, pick }
}

impl Area {
    /// Returns the window of a level that this area is, by what Info says of the file. Of a level that the file doesn't have it is a window
    /// that isn't there either. Fails where a rectangle gives no window.
    fn window(&self, info: &Info, level: u32) -> Result<Query, NoPixels>
        ensures is { result ≡ area_window info.now self.now level }
        ensures asked { IfOk result (IsWindowFor self.now level) }
    {
        match self {
            Area::Whole => Ok(whole_window(info, level)),
            Area::Bounds(bounds) => window_covering(info, bounds, level),
            Area::Pixels { x, y, w, h } => Ok(Query::Window {
                x: *x,
                y: *y,
                w: *w,
                h: *h,
                pick: Pick::Level(level),
            }),
        }
    }
}

/// Returns a window with its world file, where one is asked for. Fails with `NoWorld` where that isn't there.
fn with_world(has_world: bool, window: Query, world: Option<WorldFile>) -> Result<Given, NotGiven>
    ensures is { result ≡ with_world has_world window world }
    ensures window { IfOk result (λ given. given.window ≡ window) }
{
    match (has_world, world) {
        (false, _) => Ok(Given {
            window,
            world: None,
        }),
        (true, None) => Err(NotGiven::NoWorld),
        (true, world) => Ok(Given { window, world }),
    }
}

impl Part {
    /// Returns the window of this part, and its world file if one is asked for, by what Info says of the file. Fails with `NoWindow` where
    /// a rectangle gives no window, and with `NoWorld` where the file doesn't say where its pixels lie.
    #[tactic(auto, unfolding(crate::specs::Part::part_given))]
    pub(crate) fn given(&self, info: &Info) -> Result<Given, NotGiven>
        ensures is { result ≡ part_given info.now self.now }
        ensures asked { IfOk result (λ given. IsWindowFor self.now.area self.now.level given.window) }
    {
        match self.area.window(info, self.level) {
            Ok(window) => with_world(self.has_world, window, world_file(info, &window)),
            Err(why) => Err(NotGiven::NoWindow(why)),
        }
    }
}
