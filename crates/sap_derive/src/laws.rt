// Laws of derivations, as the contracts of functions that do nothing.
ghost use Rattle.sap_derive.specs.Decided.{DeducibilityIsDecided};
ghost use Rattle.sap_derive.specs.Examples.{NearByHand, StandingByHand};
ghost use Rattle.sap_derive.specs.Found.{FoundGoalsAreDeducible};
ghost use Rattle.sap_derive.specs.Near.{DerivationsStayNear};

use sap_rewrite::{normal_forms_are_unique, symbols_reduce_once};

/// What is deducible from names and normal terms is derived by terms that stand in these or in it, if it is normal.
pub fn derivations_stay_near()
    ensures { DerivationsStayNear }
{
    normal_forms_are_unique();
    symbols_reduce_once();
}

/// What is normal is deducible from names and normal terms, or isn't, where the signature holds its builtins' symbols.
pub fn deducibility_is_decided()
    ensures { DeducibilityIsDecided }
{
    normal_forms_are_unique();
    symbols_reduce_once();
}

/// A normal goal for which lines are found is deducible from the entries.
pub fn found_goals_are_deducible()
    ensures { FoundGoalsAreDeducible }
{}

/// Which terms stand in others, and which are near a frame and a goal, by hand.
pub fn near_by_hand()
    ensures standing { StandingByHand }
    ensures near { NearByHand }
{}
