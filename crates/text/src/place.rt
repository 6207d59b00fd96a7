// Where a byte stands in a text, by lines and by characters.
ghost use Rattle.std.specs.Prelude.{◌≡◌, ◌+◌, ◌^◌, ◌<◌, ◌≤◌, length, take};
ghost use Rattle.text.specs.Reached.{after, spot, spot_of};

use crate::spot::Place;

// The place after one byte more.
fn after_byte(p: Place, b: u8) -> Place
    requires { (p.line + 1 < 2 ^ 64) × (p.column + 1 < 2 ^ 64) }
    ensures value { spot_of result ≡ after b (spot_of p) }
    ensures bound { (result.line ≤ p.line + 1) × (result.column ≤ p.column + 1) }
{
    if b == b'\n' {
        return Place {
            line: p.line + 1,
            column: 0,
        };
    }
    if b < 128 || b >= 192 {
        return Place {
            line: p.line,
            column: p.column + 1,
        };
    }
    p
}

// The place of a byte; of one past the end, the place where the text ends.
pub fn place_of(text: &str, at: usize) -> Place
    ensures value { spot_of result ≡ spot (take at text.now) }
    ensures bound { (result.line ≤ length text.now) × (result.column ≤ length text.now) }
{
    let bytes = text.as_bytes();
    let end = at.min(bytes.len());
    let mut place = Place { line: 0, column: 0 };
    for i in 0..end {
        place = after_byte(place, bytes[i]);
    }
    place
}
