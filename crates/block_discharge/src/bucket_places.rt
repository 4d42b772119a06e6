//! Where a node stands once its excess or its label may have changed.
ghost use Rattle.std.specs.Prelude.{◌↔◌, ◌<◌, IsTrue};
ghost use Rattle.block_net.specs.Views.{count};
ghost use Rattle.block_discharge.specs.Active.{IsActiveInBlock};
ghost use Rattle.block_discharge.specs.Standing.{MayStand, IsFit, IsRenewed};

use block_net::Cells;
use node_buckets::Buckets;

/// Whether a node has excess and is not cut off.
pub fn is_active(cells: &Cells, v: usize) -> bool
    requires { v < count cells.now }
    ensures { IsTrue result ↔ IsActiveInBlock cells.now v }
{
    cells.excess(v) > 0 && cells.label(v) < cells.top()
}

/// A node whose excess may have changed stands where it has to.
pub(crate) fn renew(cells: &Cells, buckets: &mut Buckets, v: usize)
    requires node { v < count cells.now }
    requires fit { IsFit cells.now buckets.old }
    requires may { MayStand cells.now buckets.old v }
    ensures { IsRenewed cells.now v buckets.old buckets.new }
{
    if !is_active(cells, v) {
        buckets.remove(v);
    } else if !buckets.stands(v) {
        buckets.put(v, cells.label(v));
    }
}

/// A node whose label may have changed stands where it has to.
pub(crate) fn move_up(cells: &Cells, buckets: &mut Buckets, v: usize)
    requires node { v < count cells.now }
    requires fit { IsFit cells.now buckets.old }
    ensures { IsRenewed cells.now v buckets.old buckets.new }
{
    if !is_active(cells, v) {
        buckets.remove(v);
    } else if !buckets.is_aside(v) {
        buckets.put(v, cells.label(v));
    }
}
