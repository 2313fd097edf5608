// Who asks, and what a coffer allows.
ghost use Rattle.std.specs.Prelude.{◌≡◌, ⊤, ◌<◌, ◌==◌, not, ◌&&◌, ◌||◌, [], ◌∷◌, codes, length, nat_lt, is_none, IfSome};
ghost use Rattle.std.specs.List.{list_any};
ghost use Rattle.tr_types.specs.Permission.{digit_for as spec_digit, refuses as spec_refuses, is_in_group as spec_in_group};
ghost use Rattle.tr_types.specs.Permission.{has_bit as spec_bit, group_ids, groups_of, no_groups};

use bitflags::{Flag, Flags, bitflag_items};

/// The most further groups that a process has.
const MOST_GROUPS: usize = 16;

/// The further groups of a process: the first `count` numbers of `ids`. The rest are 0.
#[derive(Clone, Copy, Debug, PartialEq, Eq)]
pub struct Groups {
    pub count: u8,
    pub ids: [u32; MOST_GROUPS],
}

impl Groups {
    /// No further groups.
    pub const NONE: Groups = Groups {
        count: 0,
        ids: [0; MOST_GROUPS],
    };

    /// The groups with these numbers; none where they are more than 16.
    pub fn new(ids: &[u32]) -> Option<Groups>
        ensures groups { IfSome result (λ groups. groups ≡ groups_of ids.now) }
        ensures too_many { is_none result ≡ nat_lt 16 (length ids.now) }
    {
        let mut all = [0; MOST_GROUPS];
        if all.len() < ids.len() {
            return None;
        }
        all[..ids.len()].copy_from_slice(ids);
        Some(Groups {
            count: ids.len() as u8,
            ids: all,
        })
    }

    /// The numbers of the groups.
    pub fn as_slice(&self) -> &[u32]
        ensures { result.now ≡ group_ids self.now }
    {
        let count = usize::from(self.count).min(MOST_GROUPS);
        &self.ids[..count]
    }

    /// Whether a group is one of these.
    pub fn contains(&self, gid: u32) -> bool
        ensures { result ≡ list_any (λ id. id == gid) (group_ids self.now) }
    {
        self.as_slice().iter().any(|id| *id == gid)
    }
}

/// Who a process acts for.
#[derive(Clone, Copy, Debug, PartialEq, Eq)]
pub struct Cred {
    pub uid: u32,
    pub gid: u32,
    pub groups: Groups,
}

impl Cred {
    /// A user and its group, with no further groups.
    pub fn new(uid: u32, gid: u32) -> Cred
        ensures { result ≡ record { uid = uid; gid = gid; groups = no_groups } }
    {
        Cred {
            uid,
            gid,
            groups: Groups::NONE,
        }
    }

    /// Whether a group is the process's own, or one of its further groups.
    pub fn is_in_group(&self, gid: u32) -> bool
        ensures { result ≡ spec_in_group self.now gid }
    {
        self.gid == gid || self.groups.contains(gid)
    }
}

/// The permission of a coffer. The mode is the number whose three octal digits it has: 666 is 438.
#[derive(Clone, Copy, Debug, PartialEq, Eq)]
pub struct Perm {
    pub uid: u32,
    pub gid: u32,
    pub mode: u16,
}

/// A set of rights on a coffer.
#[derive(Clone, Copy, Debug, PartialEq, Eq)]
pub struct Right(pub u8);

bitflag_items! {
    impl Right: u8 {
        const READ = 1;
        const WRITE = 2;
        const OWN = 4;
    }
}

impl Flags for Right {
    type Bits = u8;

    ghost exact = { ⊤ };

    ghost table = { (codes "READ", 1) ∷ (codes "WRITE", 2) ∷ (codes "OWN", 4) ∷ [] };

    ghost set_of = { λ r. r.0 };

    fn flags<'a>() -> &'a [Flag<Right>] {
        Right::FLAGS
    }

    fn bits(&self) -> u8 {
        self.0
    }

    fn from_bits_retain(bits: u8) -> Right {
        Right(bits)
    }
}

impl Right {
    /// Whether Read is in the set.
    pub fn reads(self) -> bool
        ensures { result ≡ spec_bit self.0 0 }
    {
        self.contains(Right::READ)
    }

    /// Whether Write is in the set.
    pub fn writes(self) -> bool
        ensures { result ≡ spec_bit self.0 1 }
    {
        self.contains(Right::WRITE)
    }

    /// Whether Own is in the set.
    pub fn owns(self) -> bool
        ensures { result ≡ spec_bit self.0 2 }
    {
        self.contains(Right::OWN)
    }
}

/// Whether the coffer's permission refuses a right of the set to the caller.
///
/// The octal digit that counts is the owner's where the uid is equal, else the group's where the coffer's gid
/// is the caller's or one of its further groups, else the third. Read needs 4 in it, Write needs 2, and Own
/// needs the owner's uid. Uid 0 is refused nothing. Takes no memory.
pub fn refuses(perm: &Perm, cred: &Cred, right: Right) -> bool
    ensures { result ≡ spec_refuses perm.now cred.now right }
{
    let digit = digit_for(perm, cred);
    let read = is_missing(right.reads(), has_bit(digit, 2));
    let write = is_missing(right.writes(), has_bit(digit, 1));
    let own = is_missing(right.owns(), cred.uid == perm.uid);
    cred.uid != 0 && (read || write || own)
}

fn digit_for(perm: &Perm, cred: &Cred) -> u16
    ensures { result ≡ spec_digit perm.now cred.now }
{
    if cred.uid == perm.uid {
        perm.mode / 64 % 8
    } else if cred.is_in_group(perm.gid) {
        perm.mode / 8 % 8
    } else {
        perm.mode % 8
    }
}

fn has_bit(digit: u16, index: u8) -> bool
    requires { index < 16 }
    ensures { result ≡ spec_bit digit index }
{
    (digit >> index) % 2 == 1
}

fn is_missing(asked: bool, given: bool) -> bool
    ensures { result ≡ (asked && not given) }
{
    asked && !given
}

#[cfg(test)]
mod tests {
    use super::*;

    // A coffer of the user 5 and the group 6.
    fn is_refused(mode: u16, uid: u32, gid: u32, right: Right) -> bool {
        is_refused_to(mode, &Cred::new(uid, gid), right)
    }

    fn is_refused_to(mode: u16, cred: &Cred, right: Right) -> bool {
        let perm = Perm {
            uid: 5,
            gid: 6,
            mode,
        };
        refuses(&perm, cred, right)
    }

    fn with_groups(uid: u32, ids: &[u32]) -> Option<Cred> {
        let groups = Groups::new(ids)?;
        Some(Cred {
            uid,
            gid: 9,
            groups,
        })
    }

    // Mode 640: the owner reads and writes, the group reads, others do neither.
    #[test]
    fn the_digit_of_the_owner_else_the_group_else_the_third(rt: HostRuntime) {
        assert_eq!(rt; is_refused(0o640, 5, 6, Right::WRITE), false);
        assert_eq!(rt; is_refused(0o640, 9, 6, Right::READ), false);
        assert_eq!(rt; is_refused(0o640, 9, 6, Right::WRITE), true);
        assert_eq!(rt; is_refused(0o640, 9, 9, Right::READ), true);
        assert_eq!(rt; is_refused(0o066, 5, 6, Right::READ), true);
    }

    #[test]
    fn a_further_group_counts_as_the_own_one(rt: HostRuntime) {
        let one_of_two = with_groups(9, &[3, 6]);
        let of_others = with_groups(9, &[3, 7]);
        let owner = with_groups(5, &[6]);
        assert_eq!(rt;
            one_of_two.map(|cred| is_refused_to(0o640, &cred, Right::READ)),
            Some(false)
        );
        assert_eq!(rt;
            one_of_two.map(|cred| is_refused_to(0o640, &cred, Right::WRITE)),
            Some(true)
        );
        assert_eq!(rt;
            of_others.map(|cred| is_refused_to(0o640, &cred, Right::READ)),
            Some(true)
        );
        assert_eq!(rt;
            owner.map(|cred| is_refused_to(0o060, &cred, Right::READ)),
            Some(true)
        );
    }

    #[test]
    fn sixteen_further_groups_at_most(rt: HostRuntime) {
        let ids = [8; 17];
        assert!(rt; Groups::new(&ids).is_none());
        assert_eq!(rt;
            Groups::new(&ids[..16]).map(|groups| groups.contains(8)),
            Some(true)
        );
        assert_eq!(rt; Groups::NONE.contains(0), false);
    }

    #[test]
    fn only_the_owner_and_uid_0_own(rt: HostRuntime) {
        assert_eq!(rt; is_refused(0o000, 5, 9, Right::OWN), false);
        assert_eq!(rt; is_refused(0o777, 9, 6, Right::OWN), true);
        assert_eq!(rt; is_refused(0o000, 0, 9, Right::OWN), false);
        assert_eq!(rt; is_refused(0o000, 0, 9, Right::WRITE), false);
    }

    #[test]
    fn each_right_of_a_set_is_needed(rt: HostRuntime) {
        let read_and_write = Right(3);
        assert_eq!(rt; is_refused(0o444, 9, 9, read_and_write), true);
        assert_eq!(rt; is_refused(0o006, 9, 9, read_and_write), false);
    }
}
