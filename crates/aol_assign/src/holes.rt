//! The first of some reads whose element isn't given.

ghost use Rattle.std.specs.Prelude.{◌≡◌, ◌+◌, ◌<◌, ◌≤◌, ◌^◌, sum, length, map, not, slice_get, Some, IfOk, IsTrue};
ghost use Rattle.std.specs.List.{AllByRecursion, position_from};
ghost use Rattle.aol_flat.specs.Instance.{places_of_sizes, port_sizes};
ghost use Rattle.aol_expr_tree.specs.declared.port.Port.{Port};
ghost use Rattle.aol_model_types.specs.declared.task.OutPort.{OutPort};
ghost use Rattle.aol_model_types.specs.Rules.{inputs_of, outputs_of};
ghost use Rattle.aol_assign.specs.Holes.{is_given_by, IsWithin, cells_from, AreWrittenFrom};

use crate::tasks::inputs_of;
use aol_expr_tree::Port;
use aol_flat::Read;
use aol_model_types::{OutPort, Task};
use std::alloc::{AllocError, Global};

/// Whether what is read is a default number, one of the first cells, which hold the main inputs, or a cell with a writer.
fn is_given(list: &[Option<u32>], inputs: u32, read: Read) -> bool
    requires { IsWithin list.now read }
    ensures { result ≡ is_given_by list.now inputs read }
{
    match read {
        Read::Const(_) => true,
        Read::Cell(cell) => cell < inputs || list[cell as usize].is_some(),
    }
}

/// The number of the first read that isn't given.
pub fn first_hole(list: &[Option<u32>], inputs: u32, reads: &[Read]) -> Option<u32>
    requires within { AllByRecursion (IsWithin list.now) reads.now }
    requires few { length reads.now < 2 ^ 32 }
    ensures { result ≡ position_from (λ r. not (is_given_by list.now inputs r)) 0 reads.now }
{
    for (number, read) in reads.iter().enumerate() {
        if !is_given(list, inputs, *read) {
            return Some(number as u32);
        }
    }
    None
}

/// The number of the first of so many cells after the main inputs that isn't given.
pub fn first_bare(list: &[Option<u32>], inputs: u32, count: u32) -> Option<u32>
    requires within { inputs + count ≤ length list.now }
    requires few { inputs + count < 2 ^ 32 }
    ensures { result ≡ position_from (λ r. not (is_given_by list.now inputs r)) 0 (cells_from inputs count) }
{
    for number in 0..count {
        if !is_given(list, inputs, Read::Cell(inputs + number)) {
            return Some(number);
        }
    }
    None
}

/// Whether each cell after the first so many has a writer.
pub fn are_written(list: &[Option<u32>], first: u32) -> bool
    ensures { IsTrue result → AreWrittenFrom first list.now }
{
    for cell in first as usize..list.len() {
        let Some(_writer) = list[cell] else {
            return false;
        };
    }
    true
}

/// The sum of some sizes.
pub fn total(sizes: &[u32]) -> u32
    requires { sum sizes.now < 2 ^ 32 }
    ensures { result ≡ sum sizes.now }
{
    sizes.iter().sum()
}

/// The sizes of some ports.
fn sizes_of(alloc: Global, ports: &[Port]) -> Result<Vec<u32>, AllocError>
    ensures { IfOk result (λ v. v.items ≡ port_sizes ports.now) }
{
    let mut sizes = Vec::new(alloc);
    for port in ports {
        sizes.push(port.shape.size())?;
    }
    Ok(sizes)
}

/// The sizes of the outputs of an elementary task.
fn sizes_made(alloc: Global, outs: &[OutPort]) -> Result<Vec<u32>, AllocError>
    ensures { IfOk result (λ v. v.items ≡ port_sizes (map (λ (o : OutPort). o.port) outs.now)) }
{
    let mut sizes = Vec::new(alloc);
    for out in outs {
        sizes.push(out.port.shape.size())?;
    }
    Ok(sizes)
}

/// The sizes of the inputs of a task.
pub fn input_sizes(alloc: Global, task: &Task) -> Result<Vec<u32>, AllocError>
    ensures { IfOk result (λ v. v.items ≡ port_sizes (inputs_of task.now)) }
{
    sizes_of(alloc, inputs_of(task))
}

/// The sizes of its outputs.
pub fn output_sizes(alloc: Global, task: &Task) -> Result<Vec<u32>, AllocError>
    ensures { IfOk result (λ v. v.items ≡ port_sizes (outputs_of task.now)) }
{
    match task {
        Task::Elementary(task) => sizes_made(alloc, task.outs.as_slice()),
        Task::Compound(task) => sizes_of(alloc, task.outs.as_slice()),
        Task::Repeated(task) => sizes_of(alloc, task.outs.as_slice()),
    }
}

/// The number of the port and the rank of the element with this number, by the sizes of the ports.
pub fn place_of(sizes: &[u32], number: u32) -> (u32, u32)
    requires within { number < sum sizes.now }
    requires few { length sizes.now < 2 ^ 32 }
    ensures { slice_get (places_of_sizes 0 sizes.now) number ≡ Some (result.0, result.1) }
{
    let mut left = number;
    for (place, size) in sizes.iter().enumerate() {
        if left < *size {
            return (place as u32, left);
        }
        left -= *size;
    }
    unreachable!()
}
