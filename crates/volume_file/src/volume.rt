ghost use Rattle.std.specs.Prelude.{◌≡◌, ◌<◌, length};
ghost use Rattle.agglo_model.specs.Axes.{edge_count};
ghost use Rattle.agglo_model.specs.Grid.{Grid, IsWhole, affinity};

use seg_base::Dims;
use std::marker::Model;

/// What the header of a volume file says. The version is 1.
#[derive(Clone, Copy)]
pub struct Head {
    pub dims: Dims,
    pub version: u8,
    pub ghost first_version: { version ≡ 1 },
}

/// A volume of affinities: three bytes for each voxel, for the edges to its predecessors on the
/// x, y and z axis. Byte `e` is the affinity of edge number `e`; where no edge has that number, it
/// means nothing.
#[derive(Drop)]
pub struct Volume {
    head: Head,
    body: Vec<u8>,
}

impl Model for Volume {
    ghost use Rattle.agglo_model.specs.Grid.{Grid, IsWhole};

    ghost Value = { Grid };

    ghost view = { λ volume. record { axes = volume.head.dims; bytes = volume.body.items } };

    ghost invariant = { λ volume. IsWhole (record { axes = volume.head.dims; bytes = volume.body.items }) };
}

impl Volume {
    /// The volume of this header and these bytes, of which there is one for each edge number.
    pub fn of(head: Head, body: Vec<u8>) -> Volume
        requires { length body.items ≡ edge_count head.dims }
        ensures { result ≡ record { axes = head.dims; bytes = body.items } }
    {
        let length = head.dims.body_len() as usize;
        prove!(body.len() == length);
        Volume { head, body }
    }

    /// What the file's header says.
    pub fn head(&self) -> &Head
        ensures value { result.now.dims ≡ self.now.axes }
        ensures whole { IsWhole self.now }
    {
        &self.head
    }

    /// The lengths of the axes.
    pub fn dims(&self) -> &Dims
        ensures value { result.now ≡ self.now.axes }
        ensures whole { IsWhole self.now }
    {
        &self.head.dims
    }

    /// The affinity of edge number `e`.
    pub fn aff(&self, e: u32) -> u8
        requires { e < edge_count self.now.axes }
        ensures value { result ≡ affinity self.now e }
        ensures whole { IsWhole self.now }
    {
        self.body[e as usize]
    }

    /// The byte of each edge number, in order.
    pub fn bytes(&self) -> &[u8]
        ensures value { result.now ≡ self.now.bytes }
        ensures whole { IsWhole self.now }
    {
        &self.body
    }
}
