//! Laws of the definitions of `meaning`: the bodies of a recursive group without faults grow, and
//! so its least solution solves its equations. Read in specs/: Inside, RisingLaws.

ghost use Rattle.meaning_laws.specs.RisingLaws.{GroupsGrow, FaultlessGroupsAreSolved};

/// The bodies of a recursive group without faults mean no less where its names stand for more.
pub fn groups_grow()
    ensures { GroupsGrow }
{}

/// The least solution of a recursive group without faults solves its equations.
pub fn faultless_groups_are_solved()
    ensures { FaultlessGroupsAreSolved }
{}
