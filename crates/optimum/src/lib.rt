// The mathematics of plans and leans. Its functions exist to carry theorems in their contracts.
#![tactic(auto)]

ghost use Rattle.optimum.specs.Theorems.{LeansCertify, LeansDecide, PlanIsColdest};

// A plan and leans that obey the rules: no plan within the bounds costs less.
pub fn leans_certify()
    ensures { LeansCertify }
{}

// The leans of one plan that obeys the rules tell of every plan whether it is cheapest.
pub fn leans_decide()
    ensures { LeansDecide }
{}

// The plan that the search finds is the coldest of the cheapest plans, in every slot.
pub fn plan_is_coldest()
    ensures { PlanIsColdest }
{}
