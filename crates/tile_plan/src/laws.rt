//! Laws of the definitions, for the crates above. Each function does nothing: its contract is the law.
ghost use Rattle.tile_plan.specs.Covered.{TilesCover};
ghost use Rattle.std.specs.Prelude.{◌≡◌, ℕ, List, length};
ghost use Rattle.std.specs.List.{IsAmong};
ghost use Rattle.tiff_dir.specs.declared.query.Query.{Query};
ghost use Rattle.tile_plan.specs.Plan.{tiles_of};
ghost use Rattle.tile_plan.specs.declared.arrays.Arrays.{Arrays};
ghost use Rattle.tile_plan.specs.WindowBuilder.{IsPainted, IsUnderway, WindowState};

/// States that each pixel of a rectangle lies in one of its tiles.
pub fn law_tiles_cover()
    ensures { TilesCover }
{}

/// States that each tile of a window's rectangle is on the picture after all groups of the window were given.
pub fn law_all_are_painted()
    ensures { (f : List ℕ) (q : Query) (a : Arrays) (w : WindowState) → IsUnderway f q a w → w.given ≡ length w.groups
        → (t : ℕ) → IsAmong (tiles_of a.level w.picture.rectangle) t → IsPainted f w.picture.rectangle.level w.picture t }
{}
