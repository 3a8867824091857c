ghost use Rattle.std.specs.Prelude.{◌≡◌, ◌<◌, ◌≤◌, ◌↔◌, IsTrue, MatchOption, true};
ghost use Rattle.agglo_model.specs.Axes.{edge_count, is_edge, place_of, voxel_count};
ghost use Rattle.agglo_model.specs.EdgeOrder.{EdgeBefore, HasNoBest, IsBest};
ghost use Rattle.agglo_model.specs.Grid.{affinity};
ghost use Rattle.edge_order.specs.Keys.{key, raised};
ghost use Rattle.edge_order.specs.Steps.{IsBestStep};

use crate::step::Step;
use volume_file::Volume;

/// Whether edge `e` comes before edge `f`: its byte is greater, or the bytes are equal and its number
/// is smaller.
pub fn stronger(vol: &Volume, e: u32, f: u32) -> bool
    requires first { IsTrue (is_edge vol.now.axes e) }
    requires second { IsTrue (is_edge vol.now.axes f) }
    ensures { IsTrue result ↔ EdgeBefore vol.now e f }
{
    let first = vol.aff(e);
    let second = vol.aff(f);
    first > second || (first == second && e < f)
}

/// The edge that comes before all others at voxel `v` whose byte is at least `low`. None where there
/// is no such edge.
pub fn best_edge(vol: &Volume, low: u8, v: u32) -> Option<u32>
    requires { v < voxel_count vol.now.axes }
    ensures { MatchOption result (HasNoBest vol.now low v) (λ e. IsBest vol.now low v e) }
{
    best_step(vol, low, v).edge(vol.dims(), v)
}

/// The step along the best edge of voxel `v`.
pub fn best_step(vol: &Volume, low: u8, v: u32) -> Step
    requires { v < voxel_count vol.now.axes }
    ensures { IsBestStep vol.now low v result }
{
    let place = vol.dims().place(v);
    step_at_place(vol, low, v, place)
}

/// The step along the best edge of voxel `v`, which lies at this place.
fn step_at_place(vol: &Volume, low: u8, v: u32, place: [u32; 3]) -> Step
    requires voxel { v < voxel_count vol.now.axes }
    requires place { place ≡ place_of vol.now.axes v }
    ensures { IsBestStep vol.now low v result }
{
    let [x, y, z] = place;
    let dims = vol.dims();
    let row = dims.nx();
    let layer = row * dims.ny();
    let best = raised(0, vol, x > 0, 3 * v, Step::BackX);
    let best = raised(best, vol, y > 0, 3 * v + 1, Step::BackY);
    let best = raised(best, vol, z > 0, 3 * v + 2, Step::BackZ);
    let best = raised(best, vol, x + 1 < dims.nx(), 3 * (v + 1), Step::OnX);
    let best = raised(best, vol, y + 1 < dims.ny(), 3 * (v + row) + 1, Step::OnY);
    let best = raised(best, vol, z + 1 < dims.nz(), 3 * (v + layer) + 2, Step::OnZ);
    Step::of_key(best, low)
}

/// The greater of this key and that of edge `e` at this step, where there is an edge.
fn raised(best: u16, vol: &Volume, exists: bool, e: u32, step: Step) -> u16
    requires { IsTrue exists → e < edge_count vol.now.axes }
    ensures { result ≡ raised best exists (key (affinity vol.now e) step) }
{
    if exists {
        best.max(step.key(vol.aff(e)))
    } else {
        best
    }
}
