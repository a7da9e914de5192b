ghost use Rattle.std.specs.Prelude.{◌≡◌, IfOk};
ghost use Rattle.std.specs.List.{zip};
ghost use Rattle.serde_json.specs.Data.{no_members};
ghost use Rattle.serde_json.specs.View.{view, members_view};
ghost use Rattle.aol_document_writing.specs.Written.{AreWritten};
ghost use Rattle.aol_model_types.specs.Trees.{IsWritten};
ghost use Rattle.aol_model_types.specs.Writing.{members_from, type_members, list_tree, port_tree, input_port_tree, output_port_tree};

use crate::writing::to_tree::{ToTree, put_text, put_tree};
use aol_expr::{Port, Width};
use aol_model_types::{Key, OutPort};
use aol_shape::NoMemory;
use serde_json::{Map, Value, push};
use std::alloc::Global;

impl ToTree for Port {
    ghost tree = { port_tree };

    fn to_tree(&self, alloc: Global) -> Result<Value, NoMemory> {
        let mut object = Map::new(alloc);
        put_tree(&mut object, alloc, Key::KName, &self.name)?;
        put_tree(&mut object, alloc, Key::KShape, &self.shape)?;
        Ok(Value::Object(object))
    }
}

/// Puts the type of a port in an object that has no members yet, where it isn't 64 bits.
fn put_type(object: &mut Map<String, Value>, alloc: Global, width: Width) -> Result<(), NoMemory>
    ensures put { IfOk result (λ u. members_view object.old.entries ≡ no_members → members_view object.new.entries ≡ members_from (type_members width)) }
    ensures written { IfOk result (λ u. AreWritten (members_view object.old.entries) → AreWritten (members_view object.new.entries)) }
{
    match width {
        Width::Int16 => put_text(object, alloc, Key::KType, "int16"),
        Width::Int32 => put_text(object, alloc, Key::KType, "int32"),
        Width::Int64 => Ok(()),
    }
}

/// An input port of an elementary task, with its type where that isn't 64 bits.
fn input_port_of(alloc: Global, port: &Port, width: Width) -> Result<Value, NoMemory>
    ensures tree { IfOk result (λ v. view v ≡ input_port_tree (port.now, width)) }
    ensures written { IfOk result (λ v. IsWritten (view v)) }
{
    let mut object = Map::new(alloc);
    put_type(&mut object, alloc, width)?;
    put_tree(&mut object, alloc, Key::KShape, &port.shape)?;
    put_tree(&mut object, alloc, Key::KName, &port.name)?;
    Ok(Value::Object(object))
}

/// An output port of an elementary task, with its type where that isn't 64 bits.
fn output_port_of(alloc: Global, port: &OutPort, width: Width) -> Result<Value, NoMemory>
    ensures tree { IfOk result (λ v. view v ≡ output_port_tree (port.now, width)) }
    ensures written { IfOk result (λ v. IsWritten (view v)) }
{
    let mut object = Map::new(alloc);
    put_type(&mut object, alloc, width)?;
    put_tree(&mut object, alloc, Key::KExpr, &port.expr)?;
    put_tree(&mut object, alloc, Key::KShape, &port.port.shape)?;
    put_tree(&mut object, alloc, Key::KName, &port.port.name)?;
    Ok(Value::Object(object))
}

/// The input ports of an elementary task with their widths.
#[tactic(auto, using(crate::proofs::Written::array_written))]
pub(super) fn input_ports_of(
    alloc: Global,
    ports: &[Port],
    widths: &[Width],
) -> Result<Value, NoMemory>
    ensures tree { IfOk result (λ v. view v ≡ list_tree input_port_tree (zip ports.now widths.now)) }
    ensures written { IfOk result (λ v. IsWritten (view v)) }
{
    let mut trees = Vec::with_capacity(alloc, ports.len())?;
    for (port, width) in ports.iter().zip(widths) {
        let tree = input_port_of(alloc, port, *width)?;
        push(&mut trees, tree)?;
    }
    Ok(Value::Array(trees))
}

/// The output ports of an elementary task with their widths.
#[tactic(auto, using(crate::proofs::Written::array_written))]
pub(super) fn output_ports_of(
    alloc: Global,
    ports: &[OutPort],
    widths: &[Width],
) -> Result<Value, NoMemory>
    ensures tree { IfOk result (λ v. view v ≡ list_tree output_port_tree (zip ports.now widths.now)) }
    ensures written { IfOk result (λ v. IsWritten (view v)) }
{
    let mut trees = Vec::with_capacity(alloc, ports.len())?;
    for (port, width) in ports.iter().zip(widths) {
        let tree = output_port_of(alloc, port, *width)?;
        push(&mut trees, tree)?;
    }
    Ok(Value::Array(trees))
}
