//! Laws of the definitions, for the crates above. Each function does nothing: its contract is the law.
ghost use Rattle.std.specs.Prelude.{◌≡◌, ℕ, List, [], Some, slice_get};
ghost use Rattle.extents.specs.declared.limits.TheConstants.{BLOCK_SIZE, MAX_RANGE_BYTES};
ghost use Rattle.tiff_dir.specs.declared.limits.TheConstants.{MAX_DIRECTORIES, MAX_ENTRIES, MAX_GEO_BYTES, MAX_PACKET_BYTES, MAX_TILES, MAX_TILE_BYTES, MAX_WINDOW_SAMPLES};
ghost use Rattle.tiff_dir.specs.declared.tags.TheConstants.{BITS_PER_SAMPLE, COMPRESSION, GEO_ASCII_PARAMS, GEO_DOUBLE_PARAMS, GEO_KEY_DIRECTORY, IMAGE_LENGTH, IMAGE_WIDTH, MODEL_PIXEL_SCALE, MODEL_TIEPOINT, MODEL_TRANSFORMATION, NEW_SUBFILE_TYPE, PHOTOMETRIC_INTERPRETATION, PLANAR_CONFIGURATION, SAMPLES_PER_PIXEL, SAMPLE_FORMAT, TILE_BYTE_COUNTS, TILE_LENGTH, TILE_OFFSETS, TILE_WIDTH};
ghost use Rattle.tiff_dir.specs.declared.field_values.TheConstants.{BLACK_IS_ZERO, CHUNKY, COMPRESSION_NONE, COMPRESSION_PACKBITS, PLANAR, RGB, UNSIGNED_INTEGER};
ghost use Rattle.tiff_dir.specs.declared.query.Query.{Query};
ghost use Rattle.tiff_dir.specs.declared.query.Query.TheVariants.{Window};
ghost use Rattle.tiff_dir.specs.declared.query.Pick.{Pick};
ghost use Rattle.tiff_dir.specs.declared.fault.FileFault.{FileFault};
ghost use Rattle.tiff_dir.specs.declared.level.Level.{Level};
ghost use Rattle.tiff_dir.specs.Described.{AreLevels};
ghost use Rattle.tiff_dir.specs.Fault.{IsFaultOfDirectories};
ghost use Rattle.tiff_dir.specs.WalkState.{WalkState};
ghost use Rattle.tiff_dir.specs.Needs.{needs_of_directories, IsEndOf};
ghost use Rattle.tiff_dir.specs.Walk.{to_come, WalkAgrees, HasEnded, IsDescribed};
ghost use Rattle.tiff_dir.specs.Packets.{PacketsAreApart, TextsAreUnique};
ghost use Rattle.tiff_dir.specs.Faulty.{IsFaulty, IsWindow};

/// States the limits of the profile, in numbers.
pub fn law_profile_limits_are()
    ensures directories { MAX_DIRECTORIES ≡ 16 }
    ensures entries { MAX_ENTRIES ≡ 256 }
    ensures tiles { MAX_TILES ≡ 65536 }
    ensures tile { MAX_TILE_BYTES ≡ 1048576 }
    ensures range { MAX_RANGE_BYTES ≡ 1048576 }
    ensures geo { MAX_GEO_BYTES ≡ 65536 }
    ensures window { MAX_WINDOW_SAMPLES ≡ 4194304 }
    ensures packet { MAX_PACKET_BYTES ≡ 128 }
    ensures block { BLOCK_SIZE ≡ 16384 }
{}

/// States the numbers of the tags (TIFF 6.0, sections 8, 15 and 19; GeoTIFF 1.1, OGC 19-008, sections 7.1 and 8).
pub fn law_tags_are()
    ensures new_subfile_type { NEW_SUBFILE_TYPE ≡ 254 }
    ensures image_width { IMAGE_WIDTH ≡ 256 }
    ensures image_length { IMAGE_LENGTH ≡ 257 }
    ensures bits_per_sample { BITS_PER_SAMPLE ≡ 258 }
    ensures compression { COMPRESSION ≡ 259 }
    ensures photometric_interpretation { PHOTOMETRIC_INTERPRETATION ≡ 262 }
    ensures samples_per_pixel { SAMPLES_PER_PIXEL ≡ 277 }
    ensures planar_configuration { PLANAR_CONFIGURATION ≡ 284 }
    ensures tile_width { TILE_WIDTH ≡ 322 }
    ensures tile_length { TILE_LENGTH ≡ 323 }
    ensures tile_offsets { TILE_OFFSETS ≡ 324 }
    ensures tile_byte_counts { TILE_BYTE_COUNTS ≡ 325 }
    ensures sample_format { SAMPLE_FORMAT ≡ 339 }
    ensures model_pixel_scale { MODEL_PIXEL_SCALE ≡ 33550 }
    ensures model_tiepoint { MODEL_TIEPOINT ≡ 33922 }
    ensures model_transformation { MODEL_TRANSFORMATION ≡ 34264 }
    ensures geo_key_directory { GEO_KEY_DIRECTORY ≡ 34735 }
    ensures geo_double_params { GEO_DOUBLE_PARAMS ≡ 34736 }
    ensures geo_ascii_params { GEO_ASCII_PARAMS ≡ 34737 }
{}

/// States the numbers of the values that the profile accepts (TIFF 6.0, sections 4, 6, 8, 9 and 19).
pub fn law_field_values_are()
    ensures compression_none { COMPRESSION_NONE ≡ 1 }
    ensures compression_packbits { COMPRESSION_PACKBITS ≡ 32773 }
    ensures black_is_zero { BLACK_IS_ZERO ≡ 1 }
    ensures rgb { RGB ≡ 2 }
    ensures chunky { CHUNKY ≡ 1 }
    ensures planar { PLANAR ≡ 2 }
    ensures unsigned_integer { UNSIGNED_INTEGER ≡ 1 }
{}

/// States that a file has at most one window for a query.
pub fn law_one_window()
    ensures window { (f : List ℕ) (q : Query) (v u : List ℕ) → IsWindow f q v → IsWindow f q u → v ≡ u }
{}

/// States that a file has a window where no fault stands for it: that it has none is impossible.
pub fn law_some_window()
    ensures window { (f : List ℕ) (x y width height : ℕ) (pick : Pick)
        → ((fault : FileFault) → IsFaulty f (Window x y width height pick) fault → ⊥)
        → ((v : List ℕ) → IsWindow f (Window x y width height pick) v → ⊥) → ⊥ }
{}

/// States that what a walk has still to take is the end of what the directories need. This is nothing when it has
/// ended.
pub fn law_what_comes()
    ensures end { (w : WalkState) (f : List ℕ) → IsEndOf (to_come w f) (needs_of_directories f) }
    ensures over { (w : WalkState) (f : List ℕ) → WalkAgrees w f → HasEnded w → to_come w f ≡ [] }
    // Its directories are then without fault.
    ensures clean { (w : WalkState) (f : List ℕ) → WalkAgrees w f → HasEnded w → (fault : FileFault) → IsFaultOfDirectories f fault → ⊥ }
{}

/// States that the levels of a file are what the file says of them: each has the values of the directory with its
/// number.
pub fn law_levels_are_described()
    ensures described { (f : List ℕ) (levels : List Level) (n : ℕ) (l : Level) → AreLevels f levels → slice_get levels n ≡ Some l
        → IsDescribed f n l }
{}

/// States that bytes are packets in at most one way, and stand for at most one text.
pub fn law_one_text()
    ensures packet { PacketsAreApart }
    ensures text { TextsAreUnique }
{}
