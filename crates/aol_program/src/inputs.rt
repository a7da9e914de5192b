//! The inputs of a document: those of the main task, and which aren't.

ghost use Rattle.std.specs.Prelude.{◌≡◌, Some, None, MatchOption, IfOk, ◌++◌, ◌∷◌, [], OnOk};
ghost use Rattle.aol_shape.specs.Lists.{or_else};
ghost use Rattle.aol_model_types.specs.Rules.{inputs_of};
ghost use Rattle.aol_flat.specs.Inputs.{numbers_named};
ghost use Rattle.aol_flat.specs.Tasks.{main_inputs};
ghost use Rattle.aol_program.specs.Inputs.{is_given, is_asked, first_unfit, first_unknown, first_wrong_input, given_arrays};
ghost use Rattle.aol_lines.specs.Lent.{lent_pair};

use aol_expr::Port;
use aol_lines::main_task;
use aol_model::{InputArray, Model, Task};
use aol_shape::{Items, NoMemory, is_same};
use std::alloc::Global;

/// The inputs of a task.
fn inputs_of(task: &Task) -> &[Port]
    ensures { result.now ≡ inputs_of task.now }
{
    match task {
        Task::Elementary(task) => task.ins.as_slice(),
        Task::Compound(task) => task.ins.as_slice(),
        Task::Repeated(task) => task.ins.as_slice(),
    }
}

/// The inputs of the main task.
pub fn main_inputs(model: &Model) -> &[Port]
    ensures { result.now ≡ main_inputs model.now }
{
    match main_task(model) {
        Some(task) => inputs_of(task),
        None => &[],
    }
}

/// The numbers of the first array that has the name; none where no array has it.
fn numbers_named<'a>(inputs: &'a [InputArray], name: &str) -> &'a [i64]
    ensures { result.now ≡ numbers_named inputs.now name.now }
{
    for array in inputs {
        if is_same(array.name.as_str(), name) {
            return array.nums.as_slice();
        }
    }
    &[]
}

/// Whether an array has the name.
fn is_given(inputs: &[InputArray], name: &str) -> bool
    ensures { result ≡ is_given inputs.now name.now }
{
    inputs
        .iter()
        .any(|array| is_same(array.name.as_str(), name))
}

/// Whether a port has the name.
fn is_asked(ports: &[Port], name: &str) -> bool
    ensures { result ≡ is_asked ports.now name.now }
{
    ports.iter().any(|port| is_same(name, port.name.as_str()))
}

/// The first port whose array is absent or has another length than the port has points, and what is wrong.
fn first_unfit<'a>(inputs: &[InputArray], ports: &'a [Port]) -> Option<(&'a str, &'static str)>
    ensures { first_unfit inputs.now ports.now ≡ lent_pair result }
{
    for port in ports {
        let name = port.name.as_str();
        if !is_given(inputs, name) {
            return Some((name, "absent"));
        }
        if numbers_named(inputs, name).len() != port.shape.size() as usize {
            return Some((name, "length"));
        }
    }
    None
}

/// The first array whose name no port has.
fn first_unknown<'a>(ports: &[Port], inputs: &'a [InputArray]) -> Option<(&'a str, &'static str)>
    ensures { first_unknown ports.now inputs.now ≡ lent_pair result }
{
    for array in inputs {
        let name = array.name.as_str();
        if !is_asked(ports, name) {
            return Some((name, "unknown"));
        }
    }
    None
}

/// The first wrong input, by the ports of the main inputs, and what is wrong with it.
fn wrong_among<'a>(inputs: &'a [InputArray], ports: &'a [Port]) -> Option<(&'a str, &'static str)>
    ensures { or_else (first_unfit inputs.now ports.now) (first_unknown ports.now inputs.now) ≡ lent_pair result }
{
    match first_unfit(inputs, ports) {
        Some(wrong) => Some(wrong),
        None => first_unknown(ports, inputs),
    }
}

/// The first wrong input of a model, and what is wrong with it.
pub fn wrong_input<'a>(
    model: &'a Model,
    inputs: &'a [InputArray],
) -> Option<(&'a str, &'static str)>
    ensures { first_wrong_input model.now inputs.now ≡ lent_pair result }
{
    wrong_among(inputs, main_inputs(model))
}

/// The array of a port, by its name.
fn given_array(alloc: Global, inputs: &[InputArray], port: &Port) -> Result<InputArray, NoMemory>
    ensures { IfOk result (λ a. a ≡ record { name = port.now.name; nums = numbers_named inputs.now port.now.name }) }
{
    let name = port.name.copy(alloc)?;
    let nums = Items::from_slice(alloc, numbers_named(inputs, port.name.as_str()))?;
    Ok(InputArray { name, nums })
}

/// Adds the array of a port.
fn push_given(
    alloc: Global,
    arrays: &mut Items<InputArray>,
    inputs: &[InputArray],
    port: &Port,
) -> Result<(), NoMemory>
    ensures { OnOk result (arrays.new ≡ arrays.old ++ record { name = port.now.name; nums = numbers_named inputs.now port.now.name } ∷ []) }
{
    let array = given_array(alloc, inputs, port)?;
    arrays.push(array)?;
    Ok(())
}

/// The arrays of these ports, in their order.
pub fn given_arrays(
    alloc: Global,
    inputs: &[InputArray],
    ports: &[Port],
) -> Result<Items<InputArray>, NoMemory>
    ensures { IfOk result (λ arrays. arrays ≡ given_arrays inputs.now ports.now) }
{
    let mut arrays = Items::new(alloc);
    for port in ports {
        push_given(alloc, &mut arrays, inputs, port)?;
    }
    Ok(arrays)
}
