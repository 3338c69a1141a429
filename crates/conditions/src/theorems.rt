// What is shown of the definitions; the calls only name it.
ghost use Rattle.conditions.specs.Theorems.{DependsOnItsKey, KeyDecides, StepsLeaveTheTree, StepsFit, OrBindsLast};

// A condition depends on its key alone.
pub fn keys_decide()
    ensures rows { DependsOnItsKey }
    ensures key { KeyDecides }
{}

// A condition is its steps, and 159 are enough.
pub fn steps_suffice()
    ensures leave { StepsLeaveTheTree }
    ensures fit { StepsFit }
{}

// `player = 1 or player = 2 and points > 0` is true for player 1, points 0.
pub fn or_binds_last()
    ensures { OrBindsLast }
{}
