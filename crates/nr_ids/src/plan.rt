//! What a directory is opened with, and the two groups of each id.
ghost use Rattle.std.specs.Prelude.{◌≡◌, ◌<◌, ◌*◌, ◌↔◌, IsTrue};
ghost use Rattle.nr_ids.specs.Groups.{IsBadPlan, IsPlan, group_of, hint_of, mixed, second_of, ways};

/// The largest number of groups, whose ways can all be keys of one map.
pub const MAX_GROUPS: u32 = 536_870_911;

/// How many ways a group has: eight names are a cache line.
pub const WAYS: u32 = 8;

/// How many groups of eight ways a directory has, and the key of its hash. The key should be drawn at
/// random, and be told to nobody who may choose ids.
#[derive(Clone, Copy, Debug)]
pub struct Plan {
    pub groups: u32,
    pub key: u64,
}

impl Plan {
    /// Whether an opening refuses it: there must be 1 to 536,870,911 groups.
    pub fn is_bad(&self) -> bool
        ensures { IsTrue result ↔ IsBadPlan self.now }
    {
        self.groups == 0 || self.groups > MAX_GROUPS
    }

    /// The group of an id: each id has one, and another key gives it another.
    #[tactic(auto, unfolding(crate::specs::Groups::group_of))]
    pub fn group_of(&self, id: u64) -> u32
        requires { IsPlan self.now }
        ensures value { result ≡ group_of self.now id }
        ensures inside { result < self.now.groups }
    {
        let high = mixed(self.key, id) >> 32;
        let scaled = high * self.groups as u64;
        (scaled >> 32) as u32
    }

    /// The first way of an id's group.
    pub fn first_way(&self, id: u64) -> u32
        requires { IsPlan self.now }
        ensures value { result ≡ 8 * group_of self.now id }
        ensures inside { result < ways self.now }
    {
        WAYS * self.group_of(id)
    }

    /// The second group of an id, which it may have a way of where its group is well filled: another
    /// one, where there are two.
    #[tactic(auto, unfolding(crate::specs::Groups::second_of))]
    pub fn second_of(&self, id: u64) -> u32
        requires { IsPlan self.now }
        ensures value { result ≡ second_of self.now id }
        ensures inside { result < self.now.groups }
    {
        let low = mixed(self.key, id) % (1 << 32);
        let scaled = low * (self.groups as u64 - 1);
        (self.group_of(id) + 1 + (scaled >> 32) as u32) % self.groups
    }

    /// The hint of an id, by which a way may be known to have another name. It is never 0.
    #[tactic(auto, unfolding(crate::specs::Groups::hint_of))]
    pub(crate) fn hint_of(&self, id: u64) -> u8
        ensures value { result ≡ hint_of self.now id }
    {
        let bits = (mixed(self.key, id) >> 32) % (1 << 8);
        (bits as u8).max(1)
    }
}

// The id's bits, mixed once without the key, so that ids in a row come apart, and then multiplied by the
// key made odd.
#[tactic(auto, unfolding(crate::specs::Groups::mixed))]
fn mixed(key: u64, id: u64) -> u64
    ensures { result ≡ mixed key id }
{
    let product = id.wrapping_mul(0xBF58_476D_1CE4_E5B9);
    let folded = product ^ (product >> 32);
    folded.wrapping_mul(key | 1)
}
