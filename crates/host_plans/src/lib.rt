// A plan by four numbers of any size, as hosts give it.
#![tactic(auto)]

ghost use Rattle.std.specs.Prelude.{◌≡◌};
ghost use Rattle.std.specs.Result.{result_unwrap_or};
ghost use Rattle.host_plans.specs.Plans.{empty_plan, plan_of};

use plans::Plan;
use std::num::TryFromIntError;

// The plan without a register, which does not open.
const EMPTY_PLAN: Plan = Plan {
    mask: 0,
    csr: 0,
    feen: 0,
    cnt: 0,
};

// The plan of four numbers, where none is wider than a plan's.
fn narrow_plan(mask: u64, csr: u64, feen: u64, cnt: u64) -> Result<Plan, TryFromIntError>
    ensures { result_unwrap_or result empty_plan ≡ plan_of mask csr feen cnt }
{
    Ok(Plan {
        mask: mask.try_into()?,
        csr: csr.try_into()?,
        feen: feen.try_into()?,
        cnt: cnt.try_into()?,
    })
}

// The plan of numbers of any size; numbers wider than a plan's make the empty one.
pub fn plan_of(mask: u64, csr: u64, feen: u64, cnt: u64) -> Plan
    ensures { result ≡ plan_of mask csr feen cnt }
{
    narrow_plan(mask, csr, feen, cnt).unwrap_or(EMPTY_PLAN)
}
