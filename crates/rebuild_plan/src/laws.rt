//! What holds of the plan over the keys of the records. Each function is a law and does nothing.
ghost use Rattle.std.specs.Prelude.{◌≡◌, [], ◌∷◌, map, length};
ghost use Rattle.rebuild_plan.specs.Plan.{group_count, lane_count};
ghost use Rattle.rebuild_plan.specs.Keys.{pivot_of, planned_pivots, cut_of, slot_pivot, group_keys};
ghost use Rattle.rebuild_plan.specs.Keys.{PivotsDivideTheKeys, PivotsAreListed, CutsDivideTheKeys};
ghost use Rattle.rebuild_plan.specs.Keys.{GroupsHaveTheirKeys, CutsLieInTheirGroup};
ghost use Rattle.rebuild_plan.specs.Keys.{SlotsDivideThePivots, six_keys, thirteen_keys};

/// The pivots rise, and each record's key lies from its group's pivot to before the next.
pub fn pivots_divide_the_keys()
    ensures { PivotsDivideTheKeys }
{}

/// The list of all pivots has each group's at its number, and rises.
pub fn pivots_are_listed()
    ensures { PivotsAreListed }
{}

/// The cuts of a group rise, and each record's key lies from its lane's cut to before the next.
pub fn cuts_divide_the_keys()
    ensures { CutsDivideTheKeys }
{}

/// A group's own keys rise from its pivot on, and are as many as it is given records.
pub fn groups_have_their_keys()
    ensures { GroupsHaveTheirKeys }
{}

/// The cuts of a group are its pivot and keys up to before the next pivot.
pub fn cuts_lie_in_their_group()
    ensures { CutsLieInTheirGroup }
{}

/// The pivots of the slots rise, and each group's pivot lies from its slot's to before the next.
pub fn slots_divide_the_pivots()
    ensures { SlotsDivideThePivots }
{}

/// Two worked plans: six records of one group and their lanes; thirteen records in groups with eight
/// places, and the slots of these groups in a root with room for two.
pub fn plans_as_worked()
    ensures cuts { map (cut_of 0 six_keys) (0 ∷ 1 ∷ 2 ∷ 3 ∷ 4 ∷ 5 ∷ []) ≡
        0 ∷ 20 ∷ 30 ∷ 40 ∷ 50 ∷ 60 ∷ [] }
    ensures lanes { lane_count (length six_keys) ≡ 6 }
    ensures groups { group_count (length thirteen_keys) 8 ≡ 3 }
    ensures pivots { map (pivot_of 0 thirteen_keys 8) (0 ∷ 1 ∷ 2 ∷ []) ≡ 0 ∷ 60 ∷ 110 ∷ [] }
    ensures listed { planned_pivots 0 thirteen_keys 8 ≡ 0 ∷ 60 ∷ 110 ∷ [] }
    ensures own_keys { group_keys thirteen_keys 8 2 ≡ 110 ∷ 120 ∷ 130 ∷ [] }
    ensures slots { map (slot_pivot (0 ∷ 60 ∷ 110 ∷ []) 2) (0 ∷ 1 ∷ []) ≡ 0 ∷ 110 ∷ [] }
{}
