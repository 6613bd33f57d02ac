//! Where `cogread` writes what it has read.
use crate::exit::Exit;
use crate::world_file::world_path;
use command_lines::ReadLine;
use disk_files::replace_file;
use read_command::Text;
use std::io;
use std::rt::Files;

/// Writes a file of the disk whole, or leaves it as it was.
fn write_file<R>(
    rt: &R,
    line: &ReadLine<'_>,
    path: &str,
    head: &[u8],
    rest: &[u8],
) -> Result<(), Exit>
where
    R: Files + Eprint + AllocGlobal,
{
    match replace_file(rt, path, head, rest) {
        Ok(()) => Ok(()),
        Err(error) if error.kind() == io::ErrorKind::OutOfMemory => Err(Exit::Memory),
        Err(error) => {
            if line.verbose {
                let _ = eprintln!(rt; "cogread: {path} isn't written: {error}");
            }
            Err(Exit::CantWriteFile(String::from_str(rt.alloc(), path)?))
        }
    }
}

/// Writes a text to the line's file, and its world file beside it, or the text to standard output.
pub fn write_text<R>(rt: &R, line: &ReadLine<'_>, text: &Text<'_>) -> Result<(), Exit>
where
    R: Files + Print + Eprint + AllocGlobal,
{
    let Some(path) = line.output else {
        return Ok(text.write_to(&mut io::writer(rt))?);
    };
    write_file(rt, line, path, &text.head, text.samples)?;
    let Some(world) = text.world else {
        return Ok(());
    };
    let beside = world_path(rt.alloc(), path)?;
    let lines = format!(in rt.alloc(); "{world}")?;
    write_file(rt, line, beside.as_str(), lines.as_bytes(), b"")
}
