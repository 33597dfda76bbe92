// What a hive keeps of a version.
ghost use Rattle.std.specs.Prelude.{◌≡◌, IfOk};

use crate::item::Details;
use nuget_version::NoMemory;
use std::alloc::Global;

/// What a hive keeps of a version: the details of its last item, with that item's number and place.
#[derive(Drop)]
pub struct Entry {
    pub number: u32,
    pub place: u32,
    pub details: Details,
}

impl Entry {
    pub fn copy(&self, alloc: Global) -> Result<Self, NoMemory>
        ensures { IfOk result (λ e. e ≡ self.now) }
    {
        let details = self.details.copy(alloc)?;
        Ok(Entry {
            number: self.number,
            place: self.place,
            details,
        })
    }
}
