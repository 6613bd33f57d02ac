//! The plain program beside the product: whether an outcome is what the plain program reads in the whole file. Only tests stand on it.
use cog_reader::{Info, Outcome, Window};
use reference_support::{
    Rectangle, asked_rectangle, is_outside, is_too_large, level_of, level_samples, level_sides,
};
use std::alloc::{AllocError, Global};
use tiff_dir::{FileFault, Query};

/// A level's samples by the plain program, row by row. Each sample has as many bytes as in the file, with the most significant byte first.
#[derive(Drop)]
struct Rows {
    samples: u16,
    bits: u16,
    rows: Vec<Vec<u8>>,
}

/// A file without faults, and its levels by the plain program.
#[derive(Drop)]
pub struct Plain {
    pub file: Vec<u8>,
    sides: Vec<(u64, u64)>,
    levels: Vec<Rows>,
}

/// Returns the last `size` bytes of each number, with the most significant byte first.
fn bytes_of(alloc: Global, numbers: &[u64], size: u16) -> Result<Vec<u8>, AllocError> {
    let mut bytes = Vec::new(alloc);
    let unused = 8usize.saturating_sub(usize::from(size));
    for number in numbers {
        let number = number.to_be_bytes();
        bytes.extend_from_slice(number.get(unused..).unwrap_or(&[]))?;
    }
    Ok(bytes)
}

/// Returns level `n` of a file, if the plain program reads it.
fn rows_of(alloc: Global, file: &[u8], n: u32) -> Result<Option<Rows>, AllocError> {
    let Some(level) = level_of(alloc, file, n as usize)? else {
        return Ok(None);
    };
    let Some(samples) = level_samples(alloc, file, n)? else {
        return Ok(None);
    };
    let mut rows = Vec::new(alloc);
    for row in &samples {
        rows.push(bytes_of(alloc, row, level.bits / 8)?)?;
    }
    Ok(Some(Rows {
        samples: level.samples,
        bits: level.bits,
        rows,
    }))
}

impl Plain {
    /// Reads a file whole: its levels up to the first that the plain program doesn't read.
    pub fn new(alloc: Global, file: Vec<u8>) -> Result<Plain, AllocError> {
        let sides = level_sides(alloc, &file)?.unwrap_or(Vec::new(alloc));
        let mut levels = Vec::new(alloc);
        for n in 0..16 {
            match rows_of(alloc, &file, n)? {
                Some(rows) => levels.push(rows)?,
                None => break,
            }
        }
        Ok(Plain {
            file,
            sides,
            levels,
        })
    }

    /// Returns whether an outcome answers a query of the file. A window has the samples of its rectangle, and Info the sides of the levels.
    /// Of faults only the one of the query itself stands. The keys of Info aren't compared.
    pub fn is_answer(
        &self,
        alloc: Global,
        query: Query,
        outcome: &Outcome,
    ) -> Result<bool, AllocError> {
        match outcome {
            Outcome::Window(window) => self.is_window(alloc, query, window),
            Outcome::Info(info) => Ok(query == Query::Info && self.has_sides(info)),
            Outcome::Fault(FileFault::Outside) => is_outside(alloc, &self.file, query),
            Outcome::Fault(FileFault::TooLarge) => is_too_large(alloc, &self.file, query),
            Outcome::Fault(_) => Ok(false),
        }
    }

    fn has_sides(&self, info: &Info) -> bool {
        let told = info
            .sides
            .iter()
            .map(|(width, length)| (u64::from(*width), u64::from(*length)));
        told.eq(self.sides.iter().copied())
    }

    fn is_window(&self, alloc: Global, query: Query, window: &Window) -> Result<bool, AllocError> {
        let Some(asked) = asked_rectangle(alloc, &self.file, query)? else {
            return Ok(false);
        };
        let Some(level) = self.levels.get(asked.level) else {
            return Ok(false);
        };
        let pixel = u32::from(level.samples).saturating_mul(u32::from(level.bits / 8));
        let Some(part) = Part::new(asked, pixel) else {
            return Ok(false);
        };
        Ok(
            (window.w, window.h) == (part.w, part.h)
                && (window.samples, window.bits) == (level.samples, level.bits)
                && is_part(&window.pixels, &level.rows, part),
        )
    }
}

/// A rectangle of a level, and the number of bytes of a pixel.
#[derive(Clone, Copy)]
struct Part {
    x: u32,
    y: u32,
    w: u32,
    h: u32,
    pixel: u32,
}

impl Part {
    fn new(rectangle: Rectangle, pixel: u32) -> Option<Part> {
        Some(Part {
            x: u32::try_from(rectangle.left).ok()?,
            y: u32::try_from(rectangle.top).ok()?,
            w: u32::try_from(rectangle.width).ok()?,
            h: u32::try_from(rectangle.height).ok()?,
            pixel,
        })
    }
}

/// Returns whether the bytes are the part `part` of these rows.
fn is_part(bytes: &[u8], rows: &[Vec<u8>], part: Part) -> bool {
    let Some(rows) = rows
        .get(part.y as usize..)
        .and_then(|rows| rows.get(..part.h as usize))
    else {
        return false;
    };
    let width = (part.w as usize).saturating_mul(part.pixel as usize);
    let left = (part.x as usize).saturating_mul(part.pixel as usize);
    let mut rest = bytes;
    for row in rows {
        let (Some(want), Some(here), Some(next)) = (
            row.get(left..).and_then(|row| row.get(..width)),
            rest.get(..width),
            rest.get(width..),
        ) else {
            return false;
        };
        if want != here {
            return false;
        }
        rest = next;
    }
    rest.is_empty()
}
