//! The geo fields of the first directory, read one after another.
ghost use Rattle.std.specs.Prelude.{◌≡◌, ◌+◌, ◌++◌, ◌≤◌, ℕ, List, [], drop, IsSomeAnd, None, OnErr, OnOk, length, slice_get, take};
ghost use Rattle.tiff_dir.specs.Walk.{AreTyped, IsArrayOf};
ghost use Rattle.cog_reader.specs.GeoFields.{len_of_field, present_in, AreFieldParts, IsReadOf};

use extents::Memory;
use std::alloc::Global;
use std::marker::Model;
use tiff_dir::{GeoPlaces, Place};

/// The geo fields that a file has: their places, how many were read, and the bytes of those, one after the other.
#[derive(Drop)]
pub struct GeoFields {
    places: GeoPlaces,
    given: usize,
    bytes: Vec<u8>,
}

impl Model for GeoFields {
    ghost use Rattle.cog_reader.specs.GeoFields.{FieldsState, AreFields};

    ghost Value = { FieldsState };

    ghost view = { λ x. record { places = x.places; given = x.given; bytes = x.bytes.items } };

    ghost invariant = { λ x. AreFields x.places x.given x.bytes.items };
}

/// The bytes of the six fields. An absent field has none.
#[derive(Clone, Copy)]
pub struct FieldBytes<'a> {
    /// GeoKeyDirectory (34735).
    pub directory: &'a [u8],
    /// GeoDoubleParams (34736).
    pub doubles: &'a [u8],
    /// GeoAsciiParams (34737).
    pub ascii: &'a [u8],
    /// ModelPixelScale (33550).
    pub scale: &'a [u8],
    /// ModelTiepoint (33922).
    pub tiepoints: &'a [u8],
    /// ModelTransformation (34264).
    pub transformation: &'a [u8],
}

/// Returns the place of field `n`, from 0, of those that the file has. They are counted in the order in which they are
/// read.
fn nth_place(places: &GeoPlaces, n: usize) -> Option<Place>
    ensures { result ≡ slice_get (present_in places.now) n }
{
    let mut left = n;
    for place in [
        places.directory,
        places.doubles,
        places.ascii,
        places.scale,
        places.tiepoints,
        places.transformation,
    ] {
        if place.is_some() {
            if left == 0 {
                return place;
            }
            left -= 1;
        }
    }
    None
}

/// Cuts a field's bytes off the front. Returns them, and the rest.
fn cut(place: Option<Place>, bytes: &[u8]) -> (&[u8], &[u8])
    requires { len_of_field place ≤ length bytes.now }
    ensures front { result.0.now ≡ take (len_of_field place) bytes.now }
    ensures rest { result.1.now ≡ drop (len_of_field place) bytes.now }
{
    match place {
        Some(place) => bytes.split_at(place.len as usize),
        None => bytes.split_at(0),
    }
}

impl GeoFields {
    /// Makes the fields at `places`, none of which was read.
    pub fn new(alloc: Global, places: GeoPlaces) -> GeoFields
        requires { AreTyped places }
        ensures { result ≡ record { places = places; given = 0; bytes = [] } }
    {
        GeoFields {
            places,
            given: 0,
            bytes: Vec::new(alloc),
        }
    }

    /// Returns the places of the fields.
    pub fn places(&self) -> GeoPlaces
        ensures places { result ≡ self.now.places }
        ensures typed { AreTyped self.now.places }
    {
        self.places
    }

    /// Returns the place of the next field to be read, or `None` where all were read.
    pub fn next(&self) -> Option<Place>
        ensures next { result ≡ slice_get (present_in self.now.places) self.now.given }
        ensures typed { AreTyped self.now.places }
        // There is none exactly where all were read.
        ensures end { result ≡ None → self.now.given ≡ length (present_in self.now.places) }
    {
        nth_place(&self.places, self.given)
    }

    /// Returns the place of the field that is read after the next one and `index` more, or `None`.
    pub fn upcoming(&self, index: u32) -> Option<Place>
        ensures place { result ≡ slice_get (present_in self.now.places) (self.now.given + 1 + index) }
        ensures typed { AreTyped self.now.places }
    {
        nth_place(&self.places, self.given + 1 + index as usize)
    }

    /// Takes the bytes of the next field. Fails with `Memory` alone, and then changes nothing.
    pub fn give(&mut self, bytes: &[u8]) -> Result<(), Memory>
        requires { IsSomeAnd (slice_get (present_in self.old.places) self.old.given) (λ p. length bytes.now ≡ p.len) }
        ensures given { OnOk result (self.new ≡ record self.old { given = self.old.given + 1; bytes = self.old.bytes ++ bytes.now }) }
        ensures fields { OnOk result ((f : List ℕ) → IsReadOf f self.old
            → IsSomeAnd (slice_get (present_in self.old.places) self.old.given) (λ p. IsArrayOf f p bytes.now) → IsReadOf f self.new) }
        ensures err { OnErr result (self.new ≡ self.old) }
    {
        self.bytes.extend_from_slice(bytes)?;
        self.given += 1;
        Ok(())
    }

    /// Returns the bytes of each field. All were read.
    pub fn parts(&self) -> FieldBytes<'_>
        requires { self.now.given ≡ length (present_in self.now.places) }
        ensures typed { AreTyped self.now.places }
        ensures parts { AreFieldParts self.now.places self.now.bytes result.directory.now result.doubles.now result.ascii.now
            result.scale.now result.tiepoints.now result.transformation.now }
    {
        let (directory, rest) = cut(self.places.directory, &self.bytes);
        let (doubles, rest) = cut(self.places.doubles, rest);
        let (ascii, rest) = cut(self.places.ascii, rest);
        let (scale, rest) = cut(self.places.scale, rest);
        let (tiepoints, rest) = cut(self.places.tiepoints, rest);
        let (transformation, _) = cut(self.places.transformation, rest);
        FieldBytes {
            directory,
            doubles,
            ascii,
            scale,
            tiepoints,
            transformation,
        }
    }
}
