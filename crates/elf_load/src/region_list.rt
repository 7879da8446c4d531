// The regions of an image.
ghost use Rattle.std.specs.Prelude.{◌≡◌};

use guest_mem::Region;
use std::marker::Model;

/// Regions of memory in their order; contracts see them as a list.
#[derive(Drop)]
pub struct RegionList {
    items: Vec<Region>,
}

impl Model for RegionList {
    ghost use Rattle.std.specs.Prelude.{List};
    ghost use Rattle.guest_mem.specs.declared.regions.Region.{Region};

    ghost Value = { List Region };

    ghost view = { λ r. r.items.items };
}

impl RegionList {
    /// The regions of a vector.
    pub fn new(items: Vec<Region>) -> RegionList
        ensures { result ≡ items.items }
    {
        RegionList { items }
    }

    /// The regions.
    pub fn as_slice(&self) -> &[Region]
        ensures { result.now ≡ self.now }
    {
        &self.items
    }
}
