//! Spots of a text.

ghost use Rattle.std.specs.Prelude.{◌≡◌, ◌≤◌, length};
ghost use Rattle.explain.specs.Spots.{offset_at as offset_at_by, rest_at as rest_at_by, spot_at as spot_at_by, spot_behind as spot_behind_by, spot_of_place as spot_of_place_by};

use crate::lines::{behind_characters, behind_lines};
use crate::shown::goes_on;
use aerie_base::Place;

/// A spot of a text.
#[derive(Clone, Copy, Debug)]
pub struct Spot {
    /// The line, from 1.
    pub line: usize,
    /// The column in characters, from 1.
    pub column: usize,
}

/// The spot of a place.
pub(crate) fn spot_of_place(place: Place) -> Spot
    ensures { result ≡ spot_of_place_by place }
{
    Spot {
        line: place.line as usize,
        column: place.column as usize,
    }
}

/// The spot of a byte, by its number.
pub(crate) fn spot_at(bytes: &[u8], at: usize) -> Spot
    ensures { result ≡ spot_at_by bytes.now at }
{
    let before = &bytes[..at.min(bytes.len())];
    let mut line = 1;
    let mut column = 1;
    for byte in before {
        if *byte == b'\n' {
            line += 1;
            column = 1;
        } else if !goes_on(*byte) {
            column += 1;
        }
    }
    Spot { line, column }
}

/// What stands from the spot on.
pub(crate) fn rest_at(bytes: &[u8], spot: Spot) -> &[u8]
    ensures { result.now ≡ rest_at_by bytes.now spot }
{
    behind_characters(
        behind_lines(bytes, spot.line.saturating_sub(1)),
        spot.column.saturating_sub(1),
    )
}

/// The number of the byte at the spot.
pub(crate) fn offset_at(bytes: &[u8], spot: Spot) -> usize
    ensures number { result ≡ offset_at_by bytes.now spot }
    ensures within { result ≤ length bytes.now }
{
    bytes.len().saturating_sub(rest_at(bytes, spot).len())
}
