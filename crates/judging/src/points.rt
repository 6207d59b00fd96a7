// Whether the points of a program fit: each and its other side, whichever way one looks.
ghost use Rattle.std.specs.Prelude.{◌≡◌};
ghost use Rattle.judging.specs.Program.{PointFits};
ghost use Rattle.model.specs.Keeps.{then, mutual_sides, faces, points_fit};
ghost use Rattle.model.specs.Program.{nth};
ghost use Rattle.rows.specs.Decode.{said};
ghost use Rattle.rows.specs.Mapped.{Of};

use rows::decode::PointKind;
use rows::lookup::Rows;

// Whether two points are each other's other side.
fn are_sides(rows: &Rows<'_>, one: u32, two: u32) -> bool
    ensures { Of rows.now (λ g. result ≡ mutual_sides g one two) }
{
    rows.other(one) == Some(two) && rows.other(two) == Some(one)
}

// Whether what one side says fits what the other says.
fn is_faced(rows: &Rows<'_>, one: PointKind, two: PointKind) -> bool
    ensures { Of rows.now (λ g. result ≡ faces g (said one) (said two)) }
{
    match (one, two) {
        (PointKind::Over, PointKind::Over) => true,
        (PointKind::Gives(next), PointKind::Takes(side))
        | (PointKind::Takes(next), PointKind::Gives(side)) => are_sides(rows, next, side),
        (PointKind::Chooses(first, second), PointKind::Offers(side, other))
        | (PointKind::Offers(first, second), PointKind::Chooses(side, other)) => {
            are_sides(rows, first, side) && are_sides(rows, second, other)
        }
        _ => false,
    }
}

// Whether a point has another side that fits.
fn point_fits(rows: &Rows<'_>, point: u32) -> bool
    ensures { Of rows.now (λ g. result ≡ then (nth g.points point) (PointFits g point)) }
{
    let (Some(kind), Some(other)) = (rows.point(point), rows.other(point)) else {
        return false;
    };
    let Some(facing) = rows.point(other) else {
        return false;
    };
    are_sides(rows, point, other) && is_faced(rows, kind, facing)
}

// Whether all points fit.
pub(crate) fn points_keep(rows: &Rows<'_>) -> bool
    ensures { Of rows.now (λ g. result ≡ points_fit g 0 g.points) }
{
    (0..rows.map.points.count.min(256) as u32).all(|point| point_fits(rows, point))
}
