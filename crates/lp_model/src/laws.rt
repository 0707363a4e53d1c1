//! Laws of members, points and edits.
ghost use Rattle.lp_model.specs.Edits.{BackLaw, EditLaw};
ghost use Rattle.lp_model.specs.Members.{HasLaw, MembersLaw, ValueLaw};
ghost use Rattle.lp_model.specs.Satisfaction.{CommonDenominatorLaw, PartLaw, WholeLaw, WithoutLaw};

/// The value of a member is that of its form.
pub fn value_of_member()
    ensures { ValueLaw }
{}

/// Any values are the coordinates of a point.
pub fn common_denominator()
    ensures { CommonDenominatorLaw }
{}

/// A coordinate is whole exactly where the denominator divides the numerator.
pub fn whole_coordinate()
    ensures { WholeLaw }
{}

/// A list has just the members that it contains.
pub fn has_or_not()
    ensures { HasLaw }
{}

/// The active members stand in order, and are those that are active.
pub fn members_in_order()
    ensures { MembersLaw }
{}

/// An edit keeps a program well formed.
pub fn edit_keeps()
    ensures { EditLaw }
{}

/// What an edit changes, put back after it, gives the program before it.
pub fn edit_goes_back()
    ensures { BackLaw }
{}

/// What satisfies a set satisfies each part of it.
pub fn part_of_set()
    ensures { PartLaw }
{}

/// A set without one member is a part of it.
pub fn without_member()
    ensures { WithoutLaw }
{}
