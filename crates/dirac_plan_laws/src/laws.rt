ghost use Rattle.dirac_plan_laws.specs.Coding.{AcceptsCoding, EndsCoding, GoesOnCoding, StartsCoding, WaitsCoding};
ghost use Rattle.dirac_plan_laws.specs.Lasting.{ItemsLast};
ghost use Rattle.dirac_plan_laws.specs.Order.{NearOrderIsDelivered, PlansAreDelivered, PlansAreNear};
ghost use Rattle.dirac_plan_laws.specs.Plans.{PlansCanBeCoded};
ghost use Rattle.dirac_plan_laws.specs.References.{ReferencesAreKept, ReferencesAreListed, SixAreListed};
ghost use Rattle.dirac_plan_laws.specs.References.{ThreeAreListed};

use dirac_refs::least_leaves_first;

/// The pictures that a planned picture refers to are in the list of those coded before it.
pub fn references_are_listed()
    ensures served { ReferencesAreListed }
    ensures kept { ReferencesAreKept }
    // Where frames are to be shown alike, no more than three are listed, of fields no more than six.
    ensures three { ThreeAreListed }
    ensures six { SixAreListed }
{}

/// Pictures that are coded in the order of a plan are delivered by rising number.
pub fn pictures_are_delivered()
    ensures near { PlansAreNear }
    ensures delivered { NearOrderIsDelivered }
    ensures plans { PlansAreDelivered }
{
    least_leaves_first();
}

/// An item of a plan stays as it is however many pictures come, once those are there that its step needs.
pub fn items_last()
    ensures { ItemsLast }
{}

/// All that an encoder relies on in a plan.
pub fn plans_can_be_coded()
    ensures { PlansCanBeCoded }
{
    least_leaves_first();
}

/// What an encoder keeps as it codes what a planner gives, before it is known how many pictures will come.
pub fn planned_pictures_are_coded()
    ensures starts { StartsCoding }
    ensures accepts { AcceptsCoding }
    ensures waits { WaitsCoding }
    ensures goes_on { GoesOnCoding }
    ensures ends { EndsCoding }
{
    least_leaves_first();
}
