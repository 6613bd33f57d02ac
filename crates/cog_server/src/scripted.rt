//! Connections that follow a script, for tests: the sizes of the pieces in which bytes come and go, and what follows
//! them.
ghost use Rattle.std.specs.Prelude.{◌≡◌, ◌≢◌, ◌≤◌, ◌<◌, ◌^◌, ◌↔◌, ◌||◌, ◌++◌, Some, ℕ, min, option_map, IfOk, IsErr, OnOk, true, false, is_err, length, take, drop, []};
ghost use Rattle.cog_server.specs.Moved.{is_stopped, moved};

use crate::inlet::{Failed, Inlet, Outlet};
use std::alloc::Global;

/// What follows the bytes of an inlet.
#[derive(Clone, Copy, Debug, PartialEq, Eq)]
pub enum AfterBytes {
    /// The end of the input.
    End,
    /// A failure.
    Failure,
}

/// What follows the pieces of an outlet.
#[derive(Clone, Copy, Debug, PartialEq, Eq)]
pub enum AfterPieces {
    /// It takes all that it is given.
    All,
    /// It takes nothing.
    Zero,
    /// It fails.
    Failure,
}

/// Gives its bytes in pieces of these sizes, and then all others at once. A piece has at least one byte.
#[derive(Drop)]
pub struct ScriptedInlet {
    bytes: Vec<u8>,
    pieces: Vec<usize>,
    after: AfterBytes,
    position: usize,
    reads: usize,
    failed: bool,
    ghost within: { position ≤ length bytes.items },
}

impl ScriptedInlet {
    ghost use Rattle.cog_server.specs.Scripted.{after_bytes, inlet_failed, inlet_pieces, next_piece, pieces_left, script_bytes, script_given, script_left};

    /// Makes an inlet that has given nothing yet.
    pub fn new(bytes: Vec<u8>, pieces: Vec<usize>, after: AfterBytes) -> Self
        ensures bytes { script_bytes result ≡ bytes.items }
        ensures pieces { inlet_pieces result ≡ pieces.items }
        ensures turn { pieces_left result ≡ pieces.items }
        ensures after { after_bytes result ≡ after }
        ensures given { script_given result ≡ [] }
        ensures left { script_left result ≡ bytes.items }
        ensures unfailed { inlet_failed result ≡ false }
    {
        ScriptedInlet {
            bytes,
            pieces,
            after,
            position: 0,
            reads: 0,
            failed: false,
        }
    }

    /// Returns the size of the next piece.
    fn size(&self) -> usize
        ensures some { 1 ≤ result }
        ensures piece { take result (script_left self.now) ≡ next_piece (pieces_left self.now) (script_left self.now) }
    {
        self.pieces
            .get(self.reads)
            .copied()
            .unwrap_or(usize::MAX)
            .max(1)
    }
}

impl Inlet for ScriptedInlet {
    ghost use Rattle.cog_server.specs.Scripted.{after_bytes, inlet_failed, inlet_pieces, next_piece, pieces_left, script_bytes, script_given, script_left};
    ghost use Rattle.cog_server.specs.declared.scripted.AfterBytes.TheVariants.{Failure};

    ghost given = { λ s. Some (script_given s) };

    ghost is_over = { λ s. script_given s ≡ script_bytes s };

    ghost has_failed = { inlet_failed };

    /// Gives the next piece, or as much of it as `room` has room for. It fails only after all bytes were given.
    fn read(&mut self, room: &mut [u8]) -> Result<usize, Failed>
        ensures bound { IfOk result (λ n. n ≤ length room.new) }
        ensures bytes { script_given self.new ≡ script_given self.old ++ moved result room.new }
        ensures end { IfOk result (λ n. n ≡ 0 → 0 < length room.new → script_given self.new ≡ script_bytes self.new) }
        ensures failed { inlet_failed self.new ≡ (inlet_failed self.old || is_err result) }
        ensures piece { IfOk result (λ n. take n room.new
            ≡ take (length room.old) (next_piece (pieces_left self.old) (script_left self.old))) }
        ensures turn { script_left self.old ≢ [] → pieces_left self.new ≡ drop 1 (pieces_left self.old) }
        ensures fails { IsErr result ↔ (script_left self.old ≡ []) × (after_bytes self.old ≡ Failure) }
        ensures script { script_bytes self.new ≡ script_bytes self.old }
        ensures pieces { inlet_pieces self.new ≡ inlet_pieces self.old }
        ensures after { after_bytes self.new ≡ after_bytes self.old }
    {
        let left = self.bytes.len() - self.position;
        if left == 0 {
            return match self.after {
                AfterBytes::End => Ok(0),
                AfterBytes::Failure => {
                    self.failed = true;
                    Err(Failed)
                }
            };
        }
        let n = self.size().min(left).min(room.len());
        let end = self.position + n;
        room[..n].copy_from_slice(&self.bytes[self.position..end]);
        self.position = end;
        self.reads = self.reads.saturating_add(1);
        Ok(n)
    }

    fn failed(&self) -> bool {
        self.failed
    }
}

/// Takes bytes in pieces of at most these sizes, and keeps them.
#[derive(Drop)]
pub struct ScriptedOutlet {
    pieces: Vec<usize>,
    after: AfterPieces,
    taken: Vec<u8>,
    writes: usize,
    failed: bool,
}

impl ScriptedOutlet {
    ghost use Rattle.cog_server.specs.Scripted.{after_pieces, next_taken, outlet_failed, outlet_pieces, script_taken, sizes_left};

    /// Makes an outlet that has taken nothing yet.
    pub fn new(alloc: Global, pieces: Vec<usize>, after: AfterPieces) -> Self
        ensures pieces { outlet_pieces result ≡ pieces.items }
        ensures turn { sizes_left result ≡ pieces.items }
        ensures after { after_pieces result ≡ after }
        ensures taken { script_taken result ≡ [] }
        ensures unfailed { outlet_failed result ≡ false }
    {
        ScriptedOutlet {
            pieces,
            after,
            taken: Vec::new(alloc),
            writes: 0,
            failed: false,
        }
    }

    /// Returns the bytes that it has taken.
    pub fn taken(&self) -> &[u8]
        ensures { result.now ≡ script_taken self.now }
    {
        &self.taken
    }

    /// Returns the most bytes that it takes next, or `None` where it fails.
    fn size(&self) -> Option<usize>
        ensures { (many : ℕ) → many < 2 ^ 64
            → option_map (min many) result ≡ next_taken (sizes_left self.now) (after_pieces self.now) many }
    {
        match self.pieces.get(self.writes) {
            Some(size) => Some(*size),
            None => match self.after {
                AfterPieces::All => Some(usize::MAX),
                AfterPieces::Zero => Some(0),
                AfterPieces::Failure => None,
            },
        }
    }

    fn fail(&mut self) -> Result<usize, Failed>
        ensures pieces { outlet_pieces self.new ≡ outlet_pieces self.old }
        ensures after { after_pieces self.new ≡ after_pieces self.old }
        ensures taken { script_taken self.new ≡ script_taken self.old }
        ensures failed { outlet_failed self.new ≡ true }
        ensures err { IsErr result }
    {
        self.failed = true;
        Err(Failed)
    }
}

impl Outlet for ScriptedOutlet {
    ghost use Rattle.cog_server.specs.Scripted.{after_pieces, next_taken, outlet_failed, outlet_pieces, script_taken, sizes_left};

    ghost taken = { λ s. Some (script_taken s) };

    ghost has_failed = { outlet_failed };

    /// Takes as many bytes as the next piece has, or fails.
    fn write(&mut self, bytes: &[u8]) -> Result<usize, Failed>
        ensures bound { IfOk result (λ n. n ≤ length bytes.now) }
        ensures bytes { script_taken self.new ≡ script_taken self.old ++ moved result bytes.now }
        ensures failed { outlet_failed self.new ≡ (outlet_failed self.old || is_stopped result bytes.now) }
        ensures piece { IfOk result (λ n. next_taken (sizes_left self.old) (after_pieces self.old) (length bytes.now) ≡ Some n) }
        ensures turn { OnOk result (sizes_left self.new ≡ drop 1 (sizes_left self.old)) }
        ensures pieces { outlet_pieces self.new ≡ outlet_pieces self.old }
        ensures after { after_pieces self.new ≡ after_pieces self.old }
    {
        let Some(size) = self.size() else {
            return self.fail();
        };
        let n = size.min(bytes.len());
        if self.taken.extend_from_slice(&bytes[..n]).is_err() {
            return self.fail();
        }
        if n == 0 && !bytes.is_empty() {
            self.failed = true;
        }
        self.writes = self.writes.saturating_add(1);
        Ok(n)
    }

    fn failed(&self) -> bool {
        self.failed
    }
}
