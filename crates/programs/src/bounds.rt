//! Rectangles of command lines.
ghost use Rattle.std.specs.Prelude.{◌≡◌, None, Some, Err, IfErr, IfOk, OnErr};
ghost use Rattle.programs.specs.declared.exit.Exit.TheVariants.{NoRectangle};
ghost use Rattle.programs.specs.Bounds.{IsBounds, IsNoBounds, IsNoRectangle, IsOfRectangle, NamesCoordinate, coordinate, is_rectangle};

use crate::exit::Exit;
use command_lines::BoundsWords;
use text_description::Bounds;

/// Returns the finite number that a word writes, as the nearest double. Fails with `NotACoordinate`, or with `Memory`.
#[tactic(auto, using(crate::proofs::BoundsLemmas::finite_is, crate::proofs::BoundsLemmas::infinite_is, crate::proofs::BoundsLemmas::none_is))]
fn coordinate<R: AllocGlobal>(rt: &R, word: &str) -> Result<f64, Exit>
    ensures ok { IfOk result (λ x. coordinate word.now ≡ Some x) }
    ensures err { OnErr result (coordinate word.now ≡ None) }
    ensures told { IfErr result (NamesCoordinate word.now) }
    ensures kinds { IfErr result IsOfRectangle }
{
    match word.parse::<f64>() {
        Ok(number) if number.is_finite() => Ok(number),
        _ => Err(Exit::NotACoordinate(String::from_str(rt.alloc(), word)?)),
    }
}

/// Returns whether west isn't greater than east, and south not than north.
fn is_rectangle(bounds: &Bounds) -> bool
    ensures { result ≡ is_rectangle bounds.now }
{
    bounds.west <= bounds.east && bounds.south <= bounds.north
}

/// Returns the rectangle that four words write. Fails with `NotACoordinate`, with `NoRectangle` where west is greater than east or south
/// than north, or with `Memory`.
pub fn bounds<R: AllocGlobal>(rt: &R, words: &BoundsWords<'_>) -> Result<Bounds, Exit>
    ensures ok { IfOk result (IsBounds words.now) }
    ensures err { OnErr result (IsNoBounds words.now) }
    ensures turned { result ≡ Err NoRectangle → IsNoRectangle words.now }
    ensures kinds { IfErr result IsOfRectangle }
{
    let bounds = Bounds {
        west: coordinate(rt, words.west)?,
        south: coordinate(rt, words.south)?,
        east: coordinate(rt, words.east)?,
        north: coordinate(rt, words.north)?,
    };
    if is_rectangle(&bounds) {
        Ok(bounds)
    } else {
        Err(Exit::NoRectangle)
    }
}
