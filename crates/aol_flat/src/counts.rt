//! How much one node adds to the counts that are limited.

ghost use Rattle.std.specs.Prelude.{◌≡◌, ◌*◌, ◌<◌, map, sum_by, IfNone};
ghost use Rattle.aol_expr_tree.specs.declared.port.Port.{Port};
ghost use Rattle.aol_expr_tree.specs.Tree.{work};
ghost use Rattle.aol_model_types.specs.declared.task.Copied.{Copied};
ghost use Rattle.aol_model_types.specs.declared.task.OutPort.{OutPort};
ghost use Rattle.aol_model_types.specs.Rules.{inputs_of, outputs_of};
ghost use Rattle.aol_shape.specs.Shape.{size};
ghost use Rattle.aol_flat.specs.Limits.{own_walk, own_work, passed};
ghost use Rattle.aol_flat.specs.Saturated.{saturated};
ghost use Rattle.aol_flat.specs.Counted.{IsCounted};

use crate::limits::{MAX_HIERARCHY, MAX_NODES, MAX_WALK, MAX_WORK};
use aol_expr_tree::{Port, work};
use aol_model_types::{Copied, OutPort, Task};
use aol_shape::LimitName;

/// How many points there are: the product of the entries, or the greatest u64 where it is more.
pub fn points_of(entries: &[u32]) -> u64
    ensures { result ≡ saturated (size entries.now) }
{
    let mut points: u64 = 1;
    for entry in entries {
        points = points.saturating_mul(u64::from(*entry));
    }
    points
}

/// The elements of some ports.
fn elements_at(ports: &[Port]) -> u64
    ensures { result ≡ saturated (sum_by (λ (p : Port). size p.shape) ports.now) }
{
    let mut sum: u64 = 0;
    for port in ports {
        sum = sum.saturating_add(u64::from(port.shape.size()));
    }
    sum
}

/// The elements of the outputs of an elementary task.
fn elements_made(outs: &[OutPort]) -> u64
    ensures { result ≡ saturated (sum_by (λ (p : Port). size p.shape) (map (λ (o : OutPort). o.port) outs.now)) }
{
    let mut sum: u64 = 0;
    for out in outs {
        sum = sum.saturating_add(u64::from(out.port.shape.size()));
    }
    sum
}

/// The copies that some reshapes make.
fn copies_by(reshapes: &[Copied]) -> u64
    ensures { result ≡ saturated (sum_by (λ (r : Copied). size r.by.space * size r.by.pattern) reshapes.now) }
{
    let mut sum: u64 = 0;
    for reshape in reshapes {
        let space = u64::from(reshape.by.space.size());
        sum = sum.saturating_add(space.saturating_mul(u64::from(reshape.by.pattern.size())));
    }
    sum
}

/// The work of one instance of the outputs of an elementary task.
fn work_on(outs: &[OutPort]) -> u64
    ensures { result ≡ saturated (sum_by (λ (o : OutPort). size o.port.shape * work o.expr) outs.now) }
{
    let mut sum: u64 = 0;
    for out in outs {
        let elements = u64::from(out.port.shape.size());
        sum = sum.saturating_add(elements.saturating_mul(work(&out.expr)));
    }
    sum
}

/// The elements that one instance of a task reads at its inputs.
pub(crate) fn elements_read(task: &Task) -> u64
    ensures { result ≡ saturated (sum_by (λ (p : Port). size p.shape) (inputs_of task.now)) }
{
    match task {
        Task::Elementary(task) => elements_at(task.ins.as_slice()),
        Task::Compound(task) => elements_at(task.ins.as_slice()),
        Task::Repeated(task) => elements_at(task.ins.as_slice()),
    }
}

/// The elements that it writes at its outputs.
pub(crate) fn elements_written(task: &Task) -> u64
    ensures { result ≡ saturated (sum_by (λ (p : Port). size p.shape) (outputs_of task.now)) }
{
    match task {
        Task::Elementary(task) => elements_made(task.outs.as_slice()),
        Task::Compound(task) => elements_at(task.outs.as_slice()),
        Task::Repeated(task) => elements_at(task.outs.as_slice()),
    }
}

/// The elements of one instance of a task, and two more for each copy.
fn own_walk(task: &Task) -> u64
    ensures { result ≡ saturated (own_walk task.now) }
{
    match task {
        Task::Elementary(task) => {
            elements_at(task.ins.as_slice()).saturating_add(elements_made(task.outs.as_slice()))
        }
        Task::Compound(task) => {
            let ports = elements_at(task.ins.as_slice()).saturating_add(elements_at(
                task.outs.as_slice(),
            ));
            ports.saturating_add(copies_by(task.reshapes.as_slice()).saturating_mul(2))
        }
        Task::Repeated(task) => {
            elements_at(task.ins.as_slice()).saturating_add(elements_at(task.outs.as_slice()))
        }
    }
}

/// The work of one instance of a task.
fn own_work(task: &Task) -> u64
    ensures { result ≡ saturated (own_work task.now) }
{
    match task {
        Task::Elementary(task) => work_on(task.outs.as_slice()),
        Task::Compound(_) => 0,
        Task::Repeated(_) => 0,
    }
}

/// The first limit that these counts pass.
fn passed(depth: u32, nodes: u64, walk: u64, work: u64) -> Option<LimitName>
    ensures { result ≡ passed depth nodes walk work }
{
    if depth > MAX_HIERARCHY {
        Some(LimitName::Hierarchy)
    } else if nodes > u64::from(MAX_NODES) {
        Some(LimitName::Nodes)
    } else if walk > MAX_WALK {
        Some(LimitName::Walk)
    } else if work > MAX_WORK {
        Some(LimitName::Work)
    } else {
        None
    }
}

/// What the nodes up to some node come to.
#[derive(Clone, Copy)]
pub struct Counts {
    pub nodes: u64,
    pub walk: u64,
    pub work: u64,
}

impl Counts {
    /// Counts a node with its task, whose instances are as many as a space has points. It answers the limit that is passed there.
    pub fn add(&mut self, task: &Task, depth: u32, instances: u64) -> Option<LimitName>
        ensures counted { IsCounted self.old self.new task.now depth instances result }
        ensures shallow { IfNone result (depth < 33) }
    {
        self.nodes = self.nodes.saturating_add(1);
        self.walk = self
            .walk
            .saturating_add(own_walk(task).saturating_mul(instances));
        self.work = self
            .work
            .saturating_add(own_work(task).saturating_mul(instances));
        passed(depth, self.nodes, self.walk, self.work)
    }
}
