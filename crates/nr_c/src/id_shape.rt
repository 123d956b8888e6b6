//! The sizes of a map over ids as C has them, and the two groups of an id.
ghost use Rattle.std.specs.Prelude.{◌≡◌};
ghost use Rattle.nr_c.specs.IdGroups.{TellsGroup, TellsSecondGroup};
ghost use Rattle.nr_c.specs.IdOpenings.{id_shape_of};

use nr_idmap::IdShape;
use nr_ids::Plan;

/// What a map over ids is opened with.
#[repr(C)]
#[derive(Clone, Copy)]
pub struct NrIdShape {
    pub groups: u32,
    pub slots: u32,
    pub readers: u32,
    pub rows: u32,
    pub key: u64,
    pub first_number: u64,
}

impl NrIdShape {
    /// The same sizes as the map's own opening takes them.
    pub fn shape(self) -> IdShape
        ensures { result ≡ id_shape_of self }
    {
        IdShape {
            groups: self.groups,
            key: self.key,
            slots: self.slots,
            readers: self.readers,
            rows: self.rows,
            first_number: self.first_number,
        }
    }
}

/// The group of an id in a map of that shape, from 0: a group's ways are those from 8 times it on. 0
/// where the shape has no groups, or too many. No step.
#[unsafe(no_mangle)]
pub extern "C" fn nr_id_group(shape: &NrIdShape, id: u64) -> u32
    ensures { TellsGroup shape.now id result }
{
    let plan = Plan {
        groups: shape.groups,
        key: shape.key,
    };
    if plan.is_bad() {
        return 0;
    }
    plan.group_of(id)
}

/// The second group of an id, as `nr_id_group` tells the first. No step.
#[unsafe(no_mangle)]
pub extern "C" fn nr_id_second_group(shape: &NrIdShape, id: u64) -> u32
    ensures { TellsSecondGroup shape.now id result }
{
    let plan = Plan {
        groups: shape.groups,
        key: shape.key,
    };
    if plan.is_bad() {
        return 0;
    }
    plan.second_of(id)
}
