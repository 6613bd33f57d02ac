//! Files that words give by a path, with a name or without one.
ghost use Rattle.std.specs.Prelude.{◌≡◌, ◌++◌, ◌∷◌, [], IfOk, MatchOption, OnOk};
ghost use Rattle.command_lines.specs.NamedFiles.{AreNamedFiles, AreOfOneName, HaveOtherNames, HaveOwnNames, IsNamedFile, IsOfName};

use crate::names::name_of_path;
use std::alloc::{AllocError, Global};

/// Holds a file to be published: its name, and its path.
#[derive(Debug, Drop)]
pub struct NamedFile<'a> {
    pub name: String,
    pub path: &'a str,
}

/// Makes the file of a word, which is `NAME=PATH`, cut at the first `=`, or a path alone.
fn named_file(alloc: Global, word: &str) -> Result<NamedFile<'_>, AllocError>
    ensures { IfOk result (IsNamedFile word.now) }
{
    match word.split_once('=') {
        Some((name, path)) => Ok(NamedFile {
            name: String::from_str(alloc, name)?,
            path,
        }),
        None => Ok(NamedFile {
            name: name_of_path(alloc, word)?,
            path: word,
        }),
    }
}

/// Makes the files of words, one for each word. Fails where no memory is left.
pub fn named_files<'a>(alloc: Global, words: &[&'a str]) -> Result<Vec<NamedFile<'a>>, AllocError>
    ensures { IfOk result (λ files. AreNamedFiles words.now files.items) }
{
    let mut files = Vec::new(alloc);
    for word in words {
        add_named(&mut files, named_file(alloc, word)?)?;
    }
    Ok(files)
}

/// Appends a file.
fn add_named<'a>(files: &mut Vec<NamedFile<'a>>, file: NamedFile<'a>) -> Result<(), AllocError>
    ensures { OnOk result (files.new.items ≡ files.old.items ++ file.entry ∷ []) }
{
    Ok(files.push(file)?)
}

/// Returns the first file with the name `name`, or `None` where no file has it.
fn of_name<'f, 'a>(files: &'f [NamedFile<'a>], name: &str) -> Option<&'f NamedFile<'a>>
    ensures { MatchOption result (HaveOtherNames name.now files.now) (λ file. IsOfName name.now files.now file.now) }
{
    for file in files {
        if file.name.as_str() == name {
            return Some(file);
        }
    }
    None
}

/// Returns the first file that has the name of an earlier one, as the second of a pair. The earlier file is the first. Returns `None` where
/// all names differ.
pub fn two_of_one_name<'f, 'a>(
    files: &'f [NamedFile<'a>],
) -> Option<(&'f NamedFile<'a>, &'f NamedFile<'a>)>
    ensures { MatchOption result (HaveOwnNames files.now) (λ two. AreOfOneName files.now two.0.now two.1.now) }
{
    for k in 0..files.len() {
        let file = &files[k];
        if let Some(other) = of_name(&files[..k], file.name.as_str()) {
            return Some((other, file));
        }
    }
    None
}
