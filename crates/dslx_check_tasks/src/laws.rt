//! What holds of all texts, as the steps of the checking use it.

ghost use Rattle.dslx_check_tasks.specs.Laws.{InstanceIsKnown, InstanceIsThere, ItemIsKnown, ItemIsThere, KnownHolds, KnownStays, NothingKnown, PartIsJudged, PartIsKnown};

/// What is known holds, and stays known; and what is judged is there, so that it is known once it is learnt.
pub(crate) fn what_is_known()
    ensures holds { KnownHolds }
    ensures stays { KnownStays }
    ensures nothing { NothingKnown }
    ensures item_there { ItemIsThere }
    ensures item_known { ItemIsKnown }
    ensures instance_there { InstanceIsThere }
    ensures instance_known { InstanceIsKnown }
    ensures part_there { PartIsJudged }
    ensures part_known { PartIsKnown }
{
    dslx_check_declarations::work::laws::what_is_known_holds();
    dslx_check_declarations::work::laws::what_is_known_stays();
    dslx_check_declarations::work::laws::what_is_judged_is_there();
    dslx_check_declarations::work::laws::what_is_learnt_is_known();
}
