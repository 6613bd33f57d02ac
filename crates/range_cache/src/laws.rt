//! Laws of the definitions, for the crates above. Each function does nothing: its contract is the law.
ghost use Rattle.std.specs.Prelude.{◌≡◌};
ghost use Rattle.range_cache.specs.declared.cache.TheConstants.{MAX_CAPACITY, MIN_CAPACITY};
ghost use Rattle.range_cache.specs.Laws.{BesideBringNone, CutsPart, EdgesPart, FoundAreThere, FrontHolds, GapsAreUnique, MissingIsSame, MissingIsFew, MissingIsFewer, MissingIsLess, MissingIsSome, OnlyWholeAreBrought, PartsBringNone, RunsAreMissing, StoredHolds, StoredJoin, StoredStay, StoresAreFew, StoresAreSome, StoresJoin, UnwantedStay, WholeAreBrought, WholeAreFew};

/// States the fewest and the most blocks of a cache: 66 and 4,096.
pub fn law_capacities_are()
    ensures least { MIN_CAPACITY ≡ 66 }
    ensures most { MAX_CAPACITY ≡ 4096 }
{}

/// States that only the set of blocks that are there decides what is missing.
pub fn law_missing_is_exact()
    ensures unique { GapsAreUnique }
    ensures same { MissingIsSame }
    ensures few { MissingIsFew }
    ensures some { MissingIsSome }
    ensures run { RunsAreMissing }
    ensures less { MissingIsLess }
    ensures fewer { MissingIsFewer }
    ensures there { FoundAreThere }
{}

/// States how many blocks are stored.
pub fn law_stores_are_counted()
    ensures few { StoresAreFew }
    ensures some { StoresAreSome }
{}

/// States which blocks a piece brings, and at most how many.
pub fn law_pieces_bring_blocks()
    ensures brought { WholeAreBrought }
    ensures only { OnlyWholeAreBrought }
    ensures few { WholeAreFew }
{}

/// States that each block stays the file's where blocks of a piece of that file are stored, all of them or the first
/// ones.
pub fn law_stored_are_held()
    ensures all { StoredHolds }
    ensures front { FrontHolds }
{}

/// States that no block of a range leaves where other blocks are stored. The range's blocks lead the others, and the
/// stored ones have room beside them.
pub fn law_stored_stay()
    ensures { StoredStay }
{}

/// States that a piece in parts brings the same blocks as the whole piece. These are the blocks of a part, the one
/// through which the piece is cut, and those of the rest. They are stored one after another.
pub fn law_parts_bring_blocks()
    ensures edges { EdgesPart }
    ensures none { PartsBringNone }
    ensures beside { BesideBringNone }
    ensures cuts { CutsPart }
    ensures stored { StoredJoin }
    ensures counted { StoresJoin }
    ensures unwanted { UnwantedStay }
{}
