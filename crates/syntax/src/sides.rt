// The two sides of protocols: from the points of one side, those of the other are written.
ghost use Rattle.std.specs.Prelude.{◌≡◌, ◌+◌, ◌≤◌, true, ◌++◌, map, length, IfOk, OnOk};
ghost use Rattle.syntax.specs.Added.{Added};
ghost use Rattle.syntax.specs.Meaning.{point_of, points_of};
ghost use Rattle.syntax.specs.Mirror.{SidesSay, across, all_below, below, from, mirror};

use crate::tree::Point;
use std::alloc::{AllocError, Global};

// The points of both sides, and for each the number of the other side's.
#[derive(Drop)]
pub struct Sides {
    pub points: Vec<Point>,
    pub other: Vec<u32>,
}

// The other side's number of a point, where each side has `half` points.
fn other_number(n: u32, half: u32) -> u32
    requires { half ≤ 128 }
    ensures { result ≡ across half n }
{
    if n < half { n + half } else { n - half }
}

// What the other side of a point says.
fn mirrored(p: Point, half: u32) -> Point
    requires { half ≤ 128 }
    ensures { point_of result ≡ mirror half (point_of p) }
{
    match p {
        Point::Over => Point::Over,
        Point::Gives(n) => Point::Takes(other_number(n, half)),
        Point::Takes(n) => Point::Gives(other_number(n, half)),
        Point::Chooses(n, m) => Point::Offers(other_number(n, half), other_number(m, half)),
        Point::Offers(n, m) => Point::Chooses(other_number(n, half), other_number(m, half)),
    }
}

// Whether a point goes on only at points below `all`.
fn stays_below(p: Point, all: u32) -> bool
    ensures { result ≡ below all (point_of p) }
{
    match p {
        Point::Over => true,
        Point::Gives(n) => n < all,
        Point::Takes(n) => n < all,
        Point::Chooses(n, m) => n < all && m < all,
        Point::Offers(n, m) => n < all && m < all,
    }
}

// Whether all of these points do.
fn all_stay_below(points: &[Point], all: u32) -> bool
    ensures { result ≡ all_below all (points_of points.now) }
{
    for p in points {
        if !stays_below(*p, all) {
            return false;
        }
    }
    true
}

// The other side of each of these points.
fn push_mirrored(near: &[Point], half: u32, out: &mut Vec<Point>) -> Result<(), AllocError>
    requires { half ≤ 128 }
    ensures { OnOk result (points_of out.new.items ≡ points_of out.old.items ++ map (mirror half) (points_of near.now)) }
{
    for p in near {
        out.push(mirrored(*p, half))?;
    }
    Ok(())
}

// The numbers from `first` on, `count` of them.
fn push_numbers(first: u32, count: u32, out: &mut Vec<u32>) -> Result<(), AllocError>
    requires { first + count ≤ 256 }
    ensures { Added result out.old.items out.new.items (from first count) }
{
    for i in 0..count {
        out.push(first + i)?;
    }
    Ok(())
}

// Both sides of the points of one side, which may go on at points of either; none if there are more than 128 or
// one goes on where there is no point.
pub fn both_sides(heap: Global, near: &[Point]) -> Result<Option<Sides>, AllocError>
    ensures { IfOk result (λ o. SidesSay (points_of near.now) o) }
{
    if near.len() > 128 {
        return Ok(None);
    }
    let half = near.len() as u32;
    if !all_stay_below(near, half + half) {
        return Ok(None);
    }
    let mut points = Vec::new(heap);
    points.extend_from_slice(near)?;
    push_mirrored(near, half, &mut points)?;
    let mut other = Vec::new(heap);
    push_numbers(half, half, &mut other)?;
    push_numbers(0, half, &mut other)?;
    Ok(Some(Sides { points, other }))
}
