ghost use Rattle.std.specs.Prelude.{◌≡◌, IfOk, IfErr, OnOk, None};
ghost use Rattle.stream_plan.specs.Tree.{plan_tree};
ghost use Rattle.stream_plan.specs.Faults.{preorder_of, fault_for, first_fault, IsRefusedFor};
ghost use Rattle.stream_plan.specs.Sound.{IsSound};

use crate::Plan;
use crate::fault::{PlanFault, PlanWhy};
use crate::search::place_of;
use std::alloc::Global;
use std::marker::Model;

/// A plan without faults.
#[derive(Drop)]
pub struct CheckedPlan {
    plan: Plan,
}

impl Model for CheckedPlan {
    ghost use Rattle.std.specs.Prelude.{◌≡◌, None};
    ghost use Rattle.stream_plan.specs.Tree.{StreamTrees, plan_tree};
    ghost use Rattle.stream_plan.specs.Faults.{first_fault};
    ghost use Rattle.std.specs.Coded.{codes};
    ghost use Rattle.pred_eval.specs.TreeCode.{tree_code};
    ghost use Rattle.stream_plan.specs.Code.{streams_code};

    ghost Value = { StreamTrees };

    ghost coded = { streams_code (Prim.hlevel (codes, tree_code (Prim.hlevel codes))) };

    ghost view = { λ checked. plan_tree checked.plan };

    ghost invariant = { λ checked. first_fault (plan_tree checked.plan) ≡ None };
}

impl CheckedPlan {
    /// The plan that was checked.
    #[tactic(auto, using(crate::proofs::SoundLaws::faultless_is_sound))]
    pub fn plan(&self) -> &Plan
        ensures same { plan_tree result.now ≡ self.now }
        ensures faultless { first_fault self.now ≡ None }
        ensures sound { IsSound self.now }
    {
        &self.plan
    }

    /// The plan that was checked, with no copy.
    pub fn into_plan(self) -> Plan
        ensures same { plan_tree result ≡ self }
        ensures faultless { first_fault self ≡ None }
    {
        self.plan
    }
}

/// Checks the plan. It is refused for its first fault, by the order of [`PlanWhy`], and taken if it has none.
/// Attributes that are set may have any key: which names are fields is a rule of the texts of configurations.
#[tactic(auto, unfolding(crate::specs::Faults::first_fault))]
pub fn check_kinds(alloc: Global, plan: Plan) -> Result<CheckedPlan, PlanFault>
    ensures ok { IfOk result (λ checked. checked ≡ plan_tree plan) }
    ensures faultless { OnOk result (first_fault (plan_tree plan) ≡ None) }
    ensures refused { IfErr result (IsRefusedFor (first_fault (plan_tree plan))) }
{
    refuse(alloc, &plan, PlanWhy::Many)?;
    refuse(alloc, &plan, PlanWhy::Deep)?;
    refuse(alloc, &plan, PlanWhy::Children)?;
    refuse(alloc, &plan, PlanWhy::Range)?;
    refuse(alloc, &plan, PlanWhy::Kind)?;
    Ok(CheckedPlan { plan })
}

/// Refuses the plan where it has a fault of the cause.
fn refuse(alloc: Global, plan: &Plan, why: PlanWhy) -> Result<(), PlanFault>
    ensures ok { OnOk result (fault_for why (preorder_of (plan_tree plan.now)) ≡ None) }
    ensures refused { IfErr result
        (IsRefusedFor (fault_for why (preorder_of (plan_tree plan.now)))) }
{
    match place_of(alloc, plan, why)? {
        Some(path) => Err(PlanFault::Refused { path, why }),
        None => Ok(()),
    }
}
