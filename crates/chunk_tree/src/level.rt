ghost use Rattle.std.specs.Prelude.{◌≡◌, ◌⊎◌, ◌*◌, ◌+◌, ◌<◌, ◌≤◌, min, if◌then◌else◌, IfSome};
ghost use Rattle.agglo_model.specs.Axes.{Axes, IsWithinLimits};

use seg_base::Dims;

/// One level of a cutting: its number, its first node and its cells as a grid.
#[derive(Clone, Copy)]
pub(crate) struct Level {
    pub(crate) number: u32,
    pub(crate) first: u32,
    pub(crate) grid: Dims,
}

/// The children of a node: the place of the first in the grid of their level, and themselves as a small
/// grid from there on.
#[derive(Clone, Copy)]
pub(crate) struct Children {
    pub(crate) level: Level,
    pub(crate) x: u32,
    pub(crate) y: u32,
    pub(crate) z: u32,
    pub(crate) grid: Dims,
}

/// A grid of these lengths.
#[tactic(auto, using(agglo_model::proofs::AxesLimits::no_flaw))]
pub(crate) fn grid_of(nx: u32, ny: u32, nz: u32) -> Dims
    requires { IsWithinLimits (record { nx = nx; ny = ny; nz = nz }) }
    ensures { result ≡ record { nx = nx; ny = ny; nz = nz } }
{
    match Dims::new(nx, ny, nz) {
        Ok(dims) => dims,
        Err(_) => unreachable!(),
    }
}

/// Where a cell at this place begins and ends on an axis.
pub(crate) fn span(place: u32, length: u32, axis: u32) -> (u32, u32)
    requires { place * length < axis }
    ensures low { result.0 ≡ place * length }
    ensures high { result.1 ≡ min ((place + 1) * length) axis }
{
    let low = place * length;
    let high = low.saturating_add(length).min(axis);
    (low, high)
}

/// How long the pieces are where a side of a cell is cut into so many, if they make it up: they end where the side
/// does, or past it where it is the whole axis.
pub(crate) fn piece(side: u32, axis: u32, parts: u32) -> Option<u32>
    requires side { 0 < side }
    requires axis { side ≤ axis }
    requires axis_fits { axis ≤ 65535 }
    requires parts { 0 < parts }
    requires parts_fit { parts ≤ 65536 }
    ensures some { IfSome result (λ length. 0 < length) }
    ensures most { IfSome result (λ length. length ≤ axis) }
    ensures fills { IfSome result (λ length. (side ≡ length * parts) ⊎ ((axis ≤ side) × (axis ≤ length * parts))) }
{
    let length = side.div_ceil(parts);
    if side == axis || length * parts == side {
        Some(length)
    } else {
        None
    }
}

/// The value of a bit that is set, and else 0.
pub fn bit(is_set: bool, value: u8) -> u8
    ensures { result ≡ (if is_set then value else 0) }
{
    if is_set { value } else { 0 }
}
