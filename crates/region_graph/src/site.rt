ghost use Rattle.std.specs.Prelude.{◌≡◌};
ghost use Rattle.agglo_model.specs.Connected.{AreConnected};
ghost use Rattle.region_graph.specs.SiteView.{IsSite};

use chunk_tree::Cutting;
use mean_fraction::Threshold;
use seg_base::Labels;
use std::marker::Model;
use volume_file::Volume;

/// Where regions are merged: a volume, the labels that the work starts from, how the volume is cut, and
/// the threshold. All three have the same axes, and each name's voxels are connected.
#[derive(Drop)]
pub struct Site<'a> {
    vol: &'a Volume,
    labels: &'a Labels,
    cutting: &'a Cutting,
    threshold: Threshold,
}

impl<'a> Model for Site<'a> {
    ghost use Rattle.std.specs.Prelude.{◌≡◌};
    ghost use Rattle.region_graph.specs.SiteView.{IsSite, SiteView};

    ghost Value = { SiteView };

    ghost view = { λ s. record {
      grid = s.vol.now;
      labels = s.labels.now.labels;
      cutting = s.cutting.now;
      threshold = s.threshold;
    } };

    ghost invariant = { λ s. (s.labels.now.axes ≡ s.vol.now.axes)
        × IsSite (record {
          grid = s.vol.now;
          labels = s.labels.now.labels;
          cutting = s.cutting.now;
          threshold = s.threshold;
        }) };
}

impl<'a> Site<'a> {
    /// The site of these, which have the same axes. Each name's voxels are connected.
    pub fn new(
        vol: &'a Volume,
        labels: &'a Labels,
        cutting: &'a Cutting,
        threshold: Threshold,
    ) -> Site<'a>
        requires labels_fit { labels.now.axes ≡ vol.now.axes }
        requires cutting_fits { cutting.now.axes ≡ vol.now.axes }
        requires connected { AreConnected vol.now.axes labels.now.labels }
        ensures { result ≡ record {
          grid = vol.now;
          labels = labels.now.labels;
          cutting = cutting.now;
          threshold = threshold;
        } }
    {
        let _ = vol.dims();
        let _ = labels.dims();
        let _ = cutting.dims();
        Site {
            vol,
            labels,
            cutting,
            threshold,
        }
    }

    /// The volume.
    pub fn vol(&self) -> &'a Volume
        ensures value { result.now ≡ self.now.grid }
        ensures site { IsSite self.now }
    {
        self.vol
    }

    /// The labels that the work starts from.
    pub fn labels(&self) -> &'a Labels
        ensures axes { result.now.axes ≡ self.now.grid.axes }
        ensures labels { result.now.labels ≡ self.now.labels }
        ensures site { IsSite self.now }
    {
        self.labels
    }

    /// How the volume is cut.
    pub fn cutting(&self) -> &'a Cutting
        ensures value { result.now ≡ self.now.cutting }
        ensures site { IsSite self.now }
    {
        self.cutting
    }

    /// The threshold from which on regions are merged.
    pub fn threshold(&self) -> &Threshold
        ensures { result.now ≡ self.now.threshold }
    {
        &self.threshold
    }
}
