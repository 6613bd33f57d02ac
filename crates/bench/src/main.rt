//! How fast the loops over bytes go, and the server. Without a word it checks what they give. With the word `measure` it prints how
//! many GB a second each loop writes on hot tiles. The packed tiles of the files whose names follow come first. It also prints how
//! many answers a second are served from memory, and how quickly a client takes one.
#![tactic(auto)]

mod files;
mod picture;
mod pieces;
mod serving;
mod tiles;

use anyhow::{Result, bail, ensure};
use files::measure_file;
use packbits::unpack;
use picture::Picture;
use pieces::measure_pieces;
use serving::{check_serving, measure_serving};
use std::alloc::Global;
use std::env;
use std::rt::{Clock, Env};
use std::time::Instant;
use tile_plan::swap_pairs;
use tiles::{Kind, ROW, TILE, packed, plain};

const MEBIBYTE: usize = 1048576;

/// How often each is done.
const REPEATS: u32 = 4096;

/// GB a second of that many tiles.
fn rate(seconds: f64) -> f64 {
    f64::from(REPEATS) * 65536.0 / seconds / 1e9
}

/// Unpacks a tile, and compares it with what it was made of.
fn is_unpacked(seg: &[u8], plain: &[u8], out: &mut [u8]) -> bool {
    let fault = unpack(seg, ROW, out).err();
    fault.is_none() && &*out == plain
}

/// Whether a tile of a kind is unpacked to what it was made of.
fn check_unpack(alloc: Global, kind: Kind) -> Result<bool> {
    let mut out = vec![in alloc; 0u8; TILE]?;
    let seg = packed(alloc, kind)?;
    let plain = plain(alloc, kind)?;
    Ok(is_unpacked(&seg, &plain, &mut out))
}

/// Unpacks a tile of each kind, and compares it with what it was made of.
fn check(rt: &impl Print, alloc: Global) -> Result<()> {
    for kind in Kind::ALL {
        println!(rt; "unpack {}: {}", kind.name(), check_unpack(alloc, kind)?)?;
    }
    println!(rt; "blit: {}", check_blit(alloc)?)?;
    let mut pairs = *b"0123456789abcdefghijklmnopqrstuvwxyz";
    swap_pairs(&mut pairs);
    let same = pairs.as_slice() == b"1032547698badcfehgjilknmporqtsvuxwzy".as_slice();
    println!(rt; "swap_pairs: {same}")?;
    check_serving(rt, alloc)
}

/// Copies a tile of each number to its place.
fn blit_all(alloc: Global, picture: &mut Picture) -> Result<()> {
    for tile in 0..4 {
        picture.blit(tile, &vec![in alloc; tile as u8; TILE]?);
    }
    Ok(())
}

/// Whether a picture's samples are the numbers of their tiles.
fn are_numbers(samples: &[u8]) -> bool {
    let mut good = samples.len() == 4 * TILE;
    for (place, byte) in samples.iter().enumerate() {
        good = good && usize::from(*byte) == place / 131072 * 2 + place / 256 % 2;
    }
    good
}

/// Whether four tiles become the picture of their samples.
fn check_blit(alloc: Global) -> Result<bool> {
    let Some(mut picture) = Picture::new(alloc) else {
        bail!("no memory");
    };
    blit_all(alloc, &mut picture)?;
    Ok(are_numbers(&picture.into_data()))
}

/// Copies each of the four tiles.
fn blit_often(picture: &mut Picture, tile: &[u8]) {
    for n in 0..REPEATS {
        picture.blit(n % 4, tile);
    }
}

fn unpack_often(seg: &[u8], out: &mut [u8]) -> bool {
    let mut good = true;
    for _ in 0..REPEATS {
        good = good && unpack(seg, ROW, out).is_ok();
    }
    good
}

fn swap_often(bytes: &mut [u8]) {
    for _ in 0..REPEATS {
        swap_pairs(bytes);
    }
}

fn copy_often(from: &[u8], out: &mut [u8]) -> bool {
    if from.len() != out.len() {
        return false;
    }
    for _ in 0..REPEATS {
        out.copy_from_slice(from);
    }
    true
}

/// Prints the rate at which a tile of a kind is unpacked.
fn measure_unpack(rt: &(impl Print + Clock), kind: Kind, seg: &[u8], out: &mut [u8]) -> Result<()> {
    let start = Instant::now(rt)?;
    let good = unpack_often(seg, out);
    let seconds = start.elapsed(rt)?.as_secs_f64();
    ensure!(good, "unpack");
    println!(rt; "unpack {}: {:.2} GB/s", kind.name(), rate(seconds))?;
    Ok(())
}

/// Prints the rate at which a tile of each kind is unpacked.
fn measure_kinds(rt: &(impl Print + Clock), alloc: Global, out: &mut [u8]) -> Result<()> {
    for kind in Kind::ALL {
        let seg = packed(alloc, kind)?;
        measure_unpack(rt, kind, &seg, out)?;
    }
    Ok(())
}

/// Prints the rate at which tiles are copied into a picture.
fn measure_blit(rt: &(impl Print + Clock), picture: &mut Picture, tile: &[u8]) -> Result<()> {
    let start = Instant::now(rt)?;
    blit_often(picture, tile);
    let seconds = start.elapsed(rt)?.as_secs_f64();
    println!(rt; "blit: {:.2} GB/s", rate(seconds))?;
    Ok(())
}

/// The same, of a new picture.
fn measure_picture(rt: &(impl Print + Clock), alloc: Global, tile: &[u8]) -> Result<()> {
    let Some(mut picture) = Picture::new(alloc) else {
        bail!("no memory");
    };
    measure_blit(rt, &mut picture, tile)
}

/// The loops over tiles.
fn measure_tiles(rt: &(impl Print + Clock), alloc: Global) -> Result<()> {
    let mut out = vec![in alloc; 0u8; TILE]?;
    measure_kinds(rt, alloc, &mut out)?;
    measure_picture(rt, alloc, &out)
}

/// Prints the rate at which pairs are exchanged.
fn measure_swap(rt: &(impl Print + Clock), bytes: &mut [u8]) -> Result<()> {
    let start = Instant::now(rt)?;
    swap_often(bytes);
    let seconds = start.elapsed(rt)?.as_secs_f64();
    println!(rt; "swap_pairs: {:.2} GB/s", 16.0 * rate(seconds))?;
    Ok(())
}

/// Prints the rate at which bytes are copied.
fn measure_copy(rt: &(impl Print + Clock), from: &[u8], out: &mut [u8]) -> Result<()> {
    let start = Instant::now(rt)?;
    let good = copy_often(from, out);
    let seconds = start.elapsed(rt)?.as_secs_f64();
    ensure!(good, "copy");
    println!(rt; "copy: {:.2} GB/s", 16.0 * rate(seconds))?;
    Ok(())
}

/// The exchange of pairs in 1 MiB, and a copy of it.
fn measure_mebibyte(rt: &(impl Print + Clock), alloc: Global) -> Result<()> {
    let mut out = vec![in alloc; 1u8; MEBIBYTE]?;
    measure_swap(rt, &mut out)?;
    let from = vec![in alloc; 2u8; MEBIBYTE]?;
    measure_copy(rt, &from, &mut out)
}

fn measure(rt: &(impl Print + Clock), alloc: Global) -> Result<()> {
    measure_tiles(rt, alloc)?;
    measure_mebibyte(rt, alloc)?;
    measure_serving(rt, alloc)?;
    measure_pieces(rt, alloc)
}

fn main(rt: HostRuntime) -> Result<()> {
    let alloc = rt.alloc();
    let mut measures = false;
    for word in env::args(&rt)?.skip(1) {
        if measures {
            measure_file(&rt, word.as_str())?;
        } else {
            measures = word.as_str() == "measure";
        }
    }
    if measures {
        measure(&rt, alloc)
    } else {
        check(&rt, alloc)
    }
}
