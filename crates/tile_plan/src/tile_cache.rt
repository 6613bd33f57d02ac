//! Unpacked tiles, kept from one window to the next.
ghost use Rattle.std.specs.Prelude.{◌≡◌, ◌-◌, ◌*◌, ◌/◌, ◌<◌, ◌≤◌, ℕ, List, ◌∷◌, IfNone, IfOk, IfSome, IsSome, OnOk, slice_get, Some, length, nat_eq, take};
ghost use Rattle.std.specs.List.{All};
ghost use Rattle.std.specs.Map.{remove_entry};
ghost use Rattle.extents.specs.Extent.{bytes_in};
ghost use Rattle.tiff_dir.specs.Window.{PacksBy};
ghost use Rattle.std.specs.NonZero.{non_zero_usize_get};
ghost use Rattle.tile_plan.specs.TileCache.{tiles_in, tiles_of_size, IsStore, IsTileOf};

use extents::Memory;
use lru::LruCache;
use std::alloc::Global;
use std::marker::Model;
use std::mem;
use std::num::NonZeroUsize;
use tiff_dir::Codec;

/// An unpacked tile.
#[derive(Drop)]
pub struct Tile {
    /// The codec that packed it.
    pub codec: Codec,
    /// The number of its packed bytes.
    pub len: usize,
    /// The number of unpacked bytes in a row.
    pub row: usize,
    /// Its unpacked bytes.
    pub plain: Vec<u8>,
}

impl Tile {
    ghost use Rattle.std.specs.Prelude.{◌≡◌};
    ghost use Rattle.std.specs.Option.{option_copied};
    ghost use Rattle.tile_plan.specs.TileCache.{plain_of};

    /// Returns the unpacked bytes, where they were packed by `codec` into `len` bytes. They have to be `size` bytes in
    /// rows of `row` bytes.
    fn plain_of(&self, codec: Codec, len: usize, row: usize, size: usize) -> Option<&[u8]>
        ensures { option_copied result ≡ plain_of codec len row size self.now }
    {
        if self.codec != codec || self.len != len || self.row != row || self.plain.len() != size {
            return None;
        }
        Some(&self.plain)
    }
}

/// Returns a buffer of `size` bytes. Where no more tiles may be kept, it takes out the one that was used longest ago,
/// and reuses its buffer. Else the buffer is new.
fn room_for(tiles: &mut LruCache<u32, Tile>, alloc: Global, size: usize) -> Result<Vec<u8>, Memory>
    ensures size { IfOk result (λ room. length room.items ≡ size) }
    ensures tiles { tiles.new.entries ≡ take (tiles.old.cap - 1) tiles.old.entries }
    ensures cap { tiles.new.cap ≡ tiles.old.cap }
    ensures of { (f : List ℕ) → All (IsTileOf f) tiles.old.entries → All (IsTileOf f) tiles.new.entries }
    ensures store { (most each : ℕ) → IsStore most each tiles.old → IsStore most each tiles.new }
{
    if tiles.len() >= tiles.cap().get() {
        if let Some((_, tile)) = tiles.pop_lru() {
            if tile.plain.len() == size {
                return Ok(tile.plain);
            }
        }
    }
    Ok(vec![in alloc; 0u8; size]?)
}

/// Returns how many tiles of `size` bytes have at most `most` bytes together, or `None` where not one has.
fn count_in(most: usize, size: usize) -> Option<NonZeroUsize>
    ensures count { IfSome result (λ count. non_zero_usize_get count ≡ most / size) }
    ensures few { IfSome result (λ count. non_zero_usize_get count * size ≤ most) }
    ensures none { IfNone result (0 < size → size ≤ most → ⊥) }
{
    if size == 0 {
        return None;
    }
    NonZeroUsize::new(most / size)
}

/// Makes a store for `count` tiles of `size` bytes instead of one for tiles of another size, `of`. Where a store for
/// this size is there, it stays. After `Memory` the store is as it was.
fn fit(
    tiles: &mut Option<LruCache<u32, Tile>>,
    of: &mut usize,
    alloc: Global,
    size: usize,
    count: NonZeroUsize,
) -> Result<(), Memory>
    ensures store { (most : ℕ) → non_zero_usize_get count * size ≤ most → non_zero_usize_get count ≡ most / size
        → IfSome tiles.old (IsStore most of.old) → IfSome tiles.new (IsStore most of.new) }
    ensures kept { (most : ℕ) → IfSome tiles.old (IsStore most of.old)
        → OnOk result (tiles_in tiles.new ≡ tiles_of_size size (tiles_in tiles.old)) }
    ensures fits { OnOk result ((of.new ≡ size) × IsSome tiles.new) }
    ensures of { (f : List ℕ) → All (IsTileOf f) (tiles_in tiles.old) → All (IsTileOf f) (tiles_in tiles.new) }
{
    if *of == size && tiles.is_some() {
        return Ok(());
    }
    *tiles = Some(LruCache::sparse(alloc, count)?);
    *of = size;
    Ok(())
}

/// Puts a tile in front of the others. Takes the buffer of `plain`, and leaves another one of the same length there.
fn put(
    tiles: &mut LruCache<u32, Tile>,
    alloc: Global,
    codec: Codec,
    first: u32,
    len: usize,
    row: usize,
    plain: &mut Vec<u8>,
) -> Result<(), Memory>
    ensures front { OnOk result (slice_get tiles.new.entries 0
        ≡ Some (first, record { codec = codec; len = len; row = row; plain = plain.old })) }
    ensures others { OnOk result (tiles.new.entries ≡ (first, record { codec = codec; len = len; row = row; plain = plain.old })
        ∷ remove_entry (nat_eq first) (take (tiles.old.cap - 1) tiles.old.entries)) }
    ensures of { (f : List ℕ) → All (IsTileOf f) tiles.old.entries
        → PacksBy codec row (bytes_in f (record { first = first; len = len })) plain.old.items
        → All (IsTileOf f) tiles.new.entries }
    ensures store { (most : ℕ) → IsStore most (length plain.old.items) tiles.old → IsStore most (length plain.old.items) tiles.new }
    ensures size { length plain.new.items ≡ length plain.old.items }
{
    let room = room_for(tiles, alloc, plain.len())?;
    let tile = Tile {
        codec,
        len,
        row,
        plain: mem::replace(plain, room),
    };
    tiles.put(first, tile)?;
    Ok(())
}

/// Unpacked tiles of one file, by where their packed bytes begin in it. As many as have room are kept, those that were
/// used last. From one window to the next it also keeps a buffer for one tile.
pub struct TileCache {
    alloc: Global,
    most: usize,
    size: usize,
    tiles: Option<LruCache<u32, Tile>>,
    room: Vec<u8>,
}

// Written out, the drop is one call in each place where this is dropped. Derived, each place would be proved field by
// field.
impl Drop for TileCache {
    fn drop(self) {
        let TileCache {
            alloc: _,
            most: _,
            size: _,
            tiles: _,
            room: _,
        } = self;
    }
}

impl Model for TileCache {
    ghost use Rattle.std.specs.Prelude.{IfSome};
    ghost use Rattle.tile_plan.specs.TileCache.{tiles_in, IsStore, KeptTiles};

    ghost Value = { KeptTiles };

    ghost view = { λ u. record { most = u.most; tiles = tiles_in u.tiles } };

    ghost invariant = { λ u. IfSome u.tiles (IsStore u.most u.size) };
}

#[tactic(auto, unfolding(crate::specs::TileCache::AreTilesOf))]
impl TileCache {
    ghost use Rattle.std.specs.Prelude.{◌≡◌, ◌<◌, ◌≤◌, ℕ, List, [], Some, nat_eq, slice_get, IfOk, IfSome, OnOk, length};
    ghost use Rattle.std.specs.Option.{option_copied};
    ghost use Rattle.lru.specs.LruCache.{promoted};
    ghost use Rattle.extents.specs.Extent.{bytes_in};
    ghost use Rattle.tiff_dir.specs.Window.{PacksBy};
    ghost use Rattle.tile_plan.specs.TileCache.{size_of_tiles, kept_with, plain_at, AreTilesOf};

    /// Makes a cache without tiles, for at most `most` bytes of them. It allocates nothing.
    pub fn new(alloc: Global, most: usize) -> TileCache
        ensures none { result ≡ record { most = most; tiles = [] } }
        ensures of { (f : List ℕ) → AreTilesOf f result }
    {
        TileCache {
            alloc,
            most,
            size: 0,
            tiles: None,
            room: Vec::new(alloc),
        }
    }

    /// Does nothing: its contract says that the tiles that are kept have together no more bytes than they may.
    pub fn no_more_is_kept(&self)
        ensures { size_of_tiles self.now.tiles ≤ self.now.most }
    {
        if let Some(tiles) = &self.tiles {
            // The length is read for its bound alone.
            let _len = tiles.len();
        }
    }

    /// Returns a buffer of `size` bytes for a tile: that of the window before, where it is as long, or else a new one.
    /// Fails with `Memory` alone.
    pub fn take_room(&mut self, size: usize) -> Result<Vec<u8>, Memory>
        ensures size { IfOk result (λ room. length room.items ≡ size) }
        ensures same { self.new ≡ self.old }
    {
        let room = mem::replace(&mut self.room, Vec::new(self.alloc));
        if room.len() == size {
            return Ok(room);
        }
        drop(room);
        Ok(vec![in self.alloc; 0u8; size]?)
    }

    /// Keeps the buffer `room` for the next window.
    pub fn give_room(&mut self, room: Vec<u8>)
        ensures { self.new ≡ self.old }
    {
        self.room = room;
    }

    /// Notes that the tile whose packed bytes begin at `first` is used. Where it is kept, it goes to the front.
    pub fn promote(&mut self, first: u32)
        ensures tiles { self.new.tiles ≡ promoted (nat_eq first) self.old.tiles }
        ensures of { (f : List ℕ) → AreTilesOf f self.old → AreTilesOf f self.new }
        ensures most { self.new.most ≡ self.old.most }
    {
        if let Some(tiles) = &mut self.tiles {
            tiles.promote(&first);
        }
    }

    /// Returns the unpacked bytes of the tile whose `len` packed bytes begin at `first`, or `None` where it isn't kept.
    /// They are `size` bytes in rows of `row` bytes, which `codec` packed.
    pub fn find(
        &self,
        codec: Codec,
        first: u32,
        len: usize,
        row: usize,
        size: usize,
    ) -> Option<&[u8]>
        ensures found { option_copied result ≡ plain_at codec first len row size self.now }
        ensures size { IfSome result (λ plain. length plain.now ≡ size) }
        ensures stands { (f : List ℕ) → AreTilesOf f self.now
            → IfSome result (λ plain. PacksBy codec row (bytes_in f (record { first = first; len = len })) plain.now) }
    {
        let tiles = self.tiles.as_ref()?;
        let tile = tiles.peek(&first)?;
        tile.plain_of(codec, len, row, size)
    }

    /// Keeps the unpacked bytes `plain` of the tile whose `len` packed bytes begin at `first`, in front of the others.
    /// They stand in rows of `row` bytes, which `codec` packed. Takes the buffer of `plain`, and leaves another one of
    /// the same length there.
    ///
    /// Where no more may be kept, the tile that was used longest ago is dropped. Tiles of another size are dropped,
    /// too. Where not one tile of this size may be kept, nothing happens.
    ///
    /// # Errors
    /// `Memory`: the tile isn't kept.
    pub fn keep(
        &mut self,
        codec: Codec,
        first: u32,
        len: usize,
        row: usize,
        plain: &mut Vec<u8>,
    ) -> Result<(), Memory>
        ensures front { OnOk result (0 < length plain.old.items → length plain.old.items ≤ self.old.most
            → slice_get self.new.tiles 0 ≡ Some (first, record { codec = codec; len = len; row = row; plain = plain.old })) }
        ensures others { OnOk result (0 < length plain.old.items → length plain.old.items ≤ self.old.most
            → self.new.tiles ≡ kept_with (first, record { codec = codec; len = len; row = row; plain = plain.old }) self.old) }
        ensures of { (f : List ℕ) → AreTilesOf f self.old
            → PacksBy codec row (bytes_in f (record { first = first; len = len })) plain.old.items
            → AreTilesOf f self.new }
        ensures most { self.new.most ≡ self.old.most }
        ensures size { length plain.new.items ≡ length plain.old.items }
    {
        let size = plain.len();
        let Some(count) = count_in(self.most, size) else {
            return Ok(());
        };
        fit(&mut self.tiles, &mut self.size, self.alloc, size, count)?;
        let Some(tiles) = &mut self.tiles else {
            unreachable!()
        };
        put(tiles, self.alloc, codec, first, len, row, plain)
    }
}
