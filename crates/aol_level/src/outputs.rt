//! The values of an instance of an elementary task, put into its cells.

ghost use Rattle.std.specs.Prelude.{◌≡◌, ◌+◌, ◌<◌, ◌≤◌, ◌^◌, ◌++◌, [], ◌∷◌, List, map, take, length, replicate, slice_set, All, IfOk, OnOk};
ghost use Rattle.aol_expr_tree.specs.declared.value.Val.{Val};
ghost use Rattle.aol_expr_tree.specs.declared.value.Val.TheVariants.{Bad};
ghost use Rattle.aol_shape.specs.Shape.{size, rank};
ghost use Rattle.aol_flat.specs.InstanceValue.{computed, all_hold, first_fault, number_of, instance_outputs};
ghost use Rattle.aol_level.specs.Puts.{ArePlans, CanTake, IsPlan, IsReady, elements, fault_then, kept_by, port_values, put_from, value_held, values_from};

use crate::kept::Kept;
use aol_eval::Resolved;
use aol_expr_tree::{Kind, Port, Site, Val, Width};
use aol_flat::{Read, inputs_hold, output_value};
use aol_model_types::{Elementary, OutPort};
use aol_scatter::{Rest, Share};
use aol_shape::{Items, MAX_RANK, NoMemory, next_point};
use std::alloc::Global;

/// An elementary task made ready for its instances: its outputs' expressions with their names looked up, its number
/// among the elementary tasks, and how many elements its outputs have.
#[derive(Drop)]
pub struct Ready {
    pub plans: Vec<Resolved>,
    pub number: u32,
    pub count: u32,
}

/// Adds one more.
fn push_plan(plans: &mut Vec<Resolved>, plan: Resolved) -> Result<(), NoMemory>
    ensures { OnOk result (plans.new.items ≡ plans.old.items ++ plan ∷ []) }
{
    match plans.push(plan) {
        Ok(()) => Ok(()),
        Err(_) => Err(NoMemory),
    }
}

/// The resolved expressions of some outputs.
fn plans_of(alloc: Global, ins: &Items<Port>, outs: &[OutPort]) -> Result<Vec<Resolved>, NoMemory>
    ensures { IfOk result (λ plans. ArePlans ins.now outs.now plans.items) }
{
    let mut plans = Vec::with_capacity(alloc, outs.len())?;
    for out in outs {
        let plan = Resolved::of(alloc, &out.expr, ins)?;
        push_plan(&mut plans, plan)?;
    }
    Ok(plans)
}

/// How many elements some outputs have.
fn elements_of(outs: &[OutPort]) -> Result<u32, NoMemory>
    ensures { IfOk result (λ count. count ≡ elements outs.now) }
{
    let mut count = 0u32;
    for out in outs {
        let Some(more) = count.checked_add(out.port.shape.size()) else {
            return Err(NoMemory);
        };
        count = more;
    }
    Ok(count)
}

impl Ready {
    /// The task made ready; `number` is its own among the elementary tasks.
    pub fn of(alloc: Global, task: &Elementary, number: u32) -> Result<Ready, NoMemory>
        ensures ready { IfOk result (IsReady task.now) }
        ensures number { IfOk result (λ ready. ready.number ≡ number) }
    {
        let plans = plans_of(alloc, &task.ins, task.outs.as_slice())?;
        let count = elements_of(task.outs.as_slice())?;
        Ok(Ready {
            plans,
            number,
            count,
        })
    }
}

/// The element at a point, with rank `x`, of output port `k`; `held` says whether the widths of the inputs hold their numbers.
fn element(
    task: &Elementary,
    number: u32,
    nums: &[i64],
    held: bool,
    k: u32,
    out: &OutPort,
    plan: &Resolved,
    x: u32,
    point: &[u32],
) -> Val
    requires held { held ≡ all_hold task.now.ins task.now.wide_in nums.now }
    requires plan { IsPlan task.now.ins out.now plan.now }
    requires rank { x ≡ rank out.now.port.shape point.now }
    ensures { result ≡ computed number task.now nums.now k out.now point.now }
{
    let width = match task.wide_out.get(k as usize) {
        Some(width) => *width,
        None => Width::Int64,
    };
    let value = if held {
        plan.eval(nums, point)
    } else {
        Err(Kind::Range)
    };
    output_value(value, width, number, k, x)
}

/// Puts the values of output port `k` into a share, from a place on.
fn put_port(
    share: &mut Share<Kept>,
    place: u32,
    worker: u32,
    task: &Elementary,
    number: u32,
    nums: &[i64],
    held: bool,
    k: u32,
    out: &OutPort,
    plan: &Resolved,
)
    requires held { held ≡ all_hold task.now.ins task.now.wide_in nums.now }
    requires plan { IsPlan task.now.ins out.now plan.now }
    requires room { place + size out.now.port.shape ≤ length share.old.cells }
    requires few { length share.old.cells < 2 ^ 32 }
    ensures same { (share.new.name ≡ share.old.name) × (share.new.cells ≡ share.old.cells) }
    ensures values { share.new.values ≡ put_from share.old.values place (map (kept_by worker) (port_values number task.now nums.now (k, out.now))) }
{
    let shape = &out.port.shape;
    let mut indices = [0u32; MAX_RANK];
    let rank = shape.as_slice().len();
    let point = &mut indices[..rank];
    for x in 0..shape.size() {
        let val = element(task, number, nums, held, k, out, plan, x, point);
        share.put(place + x, Kept { val, worker });
        next_point(shape, point);
    }
}

/// Puts the values of the output ports from number `k` on into a share, from a place on.
pub fn put_outputs(
    share: &mut Share<Kept>,
    place: u32,
    worker: u32,
    task: &Elementary,
    number: u32,
    nums: &[i64],
    held: bool,
    k: u32,
    outs: &[OutPort],
    plans: &[Resolved],
)
    requires held { held ≡ all_hold task.now.ins task.now.wide_in nums.now }
    requires plans { ArePlans task.now.ins outs.now plans.now }
    requires counted { k + length outs.now < 2 ^ 32 }
    requires room { place + elements outs.now ≤ length share.old.cells }
    requires few { length share.old.cells < 2 ^ 32 }
    ensures same { (share.new.name ≡ share.old.name) × (share.new.cells ≡ share.old.cells) }
    ensures values { share.new.values ≡ put_from share.old.values place (map (kept_by worker) (values_from number task.now nums.now k outs.now)) }
{
    let (Some((out, outs)), Some((plan, plans))) = (outs.split_first(), plans.split_first()) else {
        return;
    };
    put_port(share, place, worker, task, number, nums, held, k, out, plan);
    let next = place + out.port.shape.size();
    put_outputs(
        share,
        next,
        worker,
        task,
        number,
        nums,
        held,
        k + 1,
        outs,
        plans,
    );
}

/// Puts a fault into some places of a share.
fn put_fault(share: &mut Share<Kept>, place: u32, worker: u32, site: Site, count: u32)
    requires room { place + count ≤ length share.old.cells }
    requires few { length share.old.cells < 2 ^ 32 }
    ensures same { (share.new.name ≡ share.old.name) × (share.new.cells ≡ share.old.cells) }
    ensures values { share.new.values ≡ put_from share.old.values place (replicate count (kept_by worker (Bad site))) }
{
    for x in 0..count {
        share.put(
            place + x,
            Kept {
                val: Val::Bad(site),
                worker,
            },
        );
    }
}

/// Puts what an instance of an elementary task gives into a share, from a place on.
///
/// `fault` is the first fault among the values of its inputs, and `nums` has their numbers, port after port and each
/// by rank. Where there is a fault, it is the value of every output element.
pub fn put_elementary(
    share: &mut Share<Kept>,
    place: u32,
    worker: u32,
    task: &Elementary,
    ready: &Ready,
    fault: Option<Site>,
    nums: &[i64],
)
    requires ready { IsReady task.now ready.now }
    requires outs { length task.now.outs < 2 ^ 32 }
    requires room { place + elements task.now.outs ≤ length share.old.cells }
    requires few { length share.old.cells < 2 ^ 32 }
    ensures same { (share.new.name ≡ share.old.name) × (share.new.cells ≡ share.old.cells) }
    ensures values { (taken : List Val) → fault ≡ first_fault taken → nums.now ≡ map number_of taken → share.new.values ≡ put_from share.old.values place (map (kept_by worker) (instance_outputs ready.now.number task.now taken)) }
{
    if let Some(site) = fault {
        put_fault(share, place, worker, site, ready.count);
        return;
    }
    let held = inputs_hold(task.ins.as_slice(), task.wide_in.as_slice(), nums);
    put_outputs(
        share,
        place,
        worker,
        task,
        ready.number,
        nums,
        held,
        0,
        task.outs.as_slice(),
        ready.plans.as_slice(),
    );
}

/// What a read takes from the cells that are not lent.
pub fn value_taken(rest: &Rest<Kept>, read: Read) -> Val
    requires { CanTake rest.now.cells read }
    ensures { result ≡ value_held rest.now.cells read }
{
    match read {
        Read::Cell(cell) => rest.get(cell).val,
        Read::Const(number) => Val::Num(number),
    }
}

/// The fault, where there is one, and else that of the value.
fn fault_then(fault: Option<Site>, val: Val) -> Option<Site>
    ensures { result ≡ fault_then fault val }
{
    match (fault, val) {
        (Some(site), _) => Some(site),
        (None, Val::Num(_)) => None,
        (None, Val::Bad(site)) => Some(site),
    }
}

/// Sets the number at a place to that of a value; 0 where it is a fault.
fn set_number(nums: &mut [i64], place: usize, val: Val)
    requires { place < length nums.old }
    ensures { nums.new ≡ slice_set nums.old place (number_of val) }
{
    match val {
        Val::Num(number) => nums[place] = number,
        Val::Bad(_) => nums[place] = 0,
    }
}

/// Takes the values that an instance reads: their numbers into the front of a buffer. It answers the first fault.
pub fn take_inputs(rest: &Rest<Kept>, reads: &[Read], nums: &mut [i64]) -> Option<Site>
    requires room { length reads.now ≤ length nums.old }
    requires held { All (CanTake rest.now.cells) reads.now }
    ensures fault { result ≡ first_fault (map (value_held rest.now.cells) reads.now) }
    ensures nums { take (length reads.now) nums.new ≡ map number_of (map (value_held rest.now.cells) reads.now) }
{
    let mut fault = None;
    for (place, read) in reads.iter().enumerate() {
        let val = value_taken(rest, *read);
        set_number(nums, place, val);
        fault = fault_then(fault, val);
    }
    fault
}
