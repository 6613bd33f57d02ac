//! Where the files of a script come from.
use http_range::Memory;
use std::alloc::{AllocError, Global};

/// Says why a file isn't loaded.
#[derive(Clone, Copy, Debug, PartialEq, Eq)]
pub enum LoadError {
    /// The file can't be read.
    CantRead,
    /// No memory was left.
    Memory,
}

impl From<AllocError> for LoadError {
    ghost use Rattle.std.specs.Prelude.{◌≡◌};
    ghost use Rattle.scripts.specs.declared.source.LoadError.TheVariants.{Memory};

    ghost from_gives = { λ _ told. told ≡ Memory };

    fn from(_refused: AllocError) -> LoadError {
        LoadError::Memory
    }
}

/// Loads the files that a script names.
pub trait Source {
    ghost use Rattle.std.specs.Prelude.{◌≡◌, ℕ, List, Option, ⊤, IfOk};
    ghost use Rattle.scripts.specs.Script.{FindsTheSame};

    /// What it may return for a path: the bytes of a file, or `None` where it can't be read. An `impl` that doesn't say it may return
    /// anything.
    ghost finds: { Self → List ℕ → Option (List ℕ) → Type 0 } = { λ _ _ _. ⊤ };

    /// Returns the bytes of the file at a path. Fails with `CantRead` where it can't be read, or with `Memory`.
    fn load(&mut self, path: &[u8]) -> Result<Vec<u8>, LoadError>
        ensures ok { IfOk result (λ bytes. finds self.old path.now (Some bytes.items)) }
        ensures cant_read { result ≡ Err LoadError.CantRead → finds self.old path.now None }
        ensures kept { FindsTheSame (finds self.old) (finds self.new) };
}

/// Holds a file in memory, with its path.
#[derive(Drop)]
struct LoadedFile {
    path: Vec<u8>,
    bytes: Vec<u8>,
}

/// Holds files in memory, by their paths.
#[derive(Drop)]
pub struct Loaded {
    alloc: Global,
    files: Vec<LoadedFile>,
}

impl Loaded {
    ghost use Rattle.std.specs.Prelude.{◌≡◌, ℕ, List, OnErr, OnOk};
    ghost use Rattle.scripts.specs.Files.{HasTheSame, IsAdded, file_at};

    /// Makes a source without files.
    pub fn new(alloc: Global) -> Loaded
        ensures { (path : List ℕ) → file_at result path ≡ None }
    {
        Loaded {
            alloc,
            files: Vec::new(alloc),
        }
    }

    /// Adds a file. Of several files of one path the first is loaded. Fails where no memory is left, and then the files stay.
    pub fn add(&mut self, path: &[u8], bytes: Vec<u8>) -> Result<(), Memory>
        ensures ok { OnOk result (IsAdded self.old self.new path.now bytes.items) }
        ensures err { OnErr result (HasTheSame self.old self.new) }
    {
        let path = Vec::from_slice(self.alloc, path)?;
        Ok(self.files.push(LoadedFile { path, bytes })?)
    }
}

impl Source for Loaded {
    ghost use Rattle.std.specs.Prelude.{◌≡◌};
    ghost use Rattle.scripts.specs.Files.{file_at};

    ghost finds = { λ loaded path file. file ≡ file_at loaded path };

    fn load(&mut self, path: &[u8]) -> Result<Vec<u8>, LoadError> {
        match self.files.iter().find(|file| file.path.as_slice() == path) {
            Some(file) => Ok(Vec::from_slice(self.alloc, &file.bytes)?),
            None => Err(LoadError::CantRead),
        }
    }
}
