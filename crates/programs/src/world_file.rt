//! The names of world files.
ghost use Rattle.std.specs.Prelude.{IfOk, string_bytes};
ghost use Rattle.programs.specs.WorldFiles.{IsStem, IsWorldPath};

use std::alloc::{AllocError, Global};

/// The ending of a world file. GDAL looks for it beside a PGM or a PPM, and for no other.
const ENDING: &str = ".wld";

/// Returns the index of the last dot of a path's last part, if something stands before that dot.
fn place_of_ending(path: &str) -> Option<usize> {
    let bytes = path.as_bytes();
    let dot = bytes.iter().rposition(|byte| *byte == b'.')?;
    let begin = match bytes.iter().rposition(|byte| *byte == b'/') {
        Some(slash) => slash + 1,
        None => 0,
    };
    if begin < dot { Some(dot) } else { None }
}

/// Returns a path without its ending, or with it where it is that of a world file.
fn stem_of(path: &str) -> &str
    ensures { IsStem path.now result.now }
{
    match place_of_ending(path) {
        Some(dot) if path.is_char_boundary(dot) => {
            let (stem, ending) = path.split_at(dot);
            if ending == ENDING { path } else { stem }
        }
        _ => path,
    }
}

/// Returns the path of the world file of the picture at a path. Its name is the picture's with another ending. Fails where no memory is
/// left.
pub fn world_path(alloc: Global, path: &str) -> Result<String, AllocError>
    ensures { IfOk result (λ world. IsWorldPath path.now (string_bytes world)) }
{
    let mut world = String::from_str(alloc, stem_of(path))?;
    world.push_str(ENDING)?;
    Ok(world)
}
