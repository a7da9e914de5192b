ghost use Rattle.std.specs.Prelude.{◌≡◌, ◌+◌, ◌≤◌, ◌<◌, ◌^◌, length, map, nat_le, true, IfOk, IfErr};
ghost use Rattle.std.specs.List.{AllByRecursion};
ghost use Rattle.serde_json.specs.View.{view};
ghost use Rattle.aol_model_types.specs.Answers.{Gives, given_items};
ghost use Rattle.aol_model_types.specs.declared.document.DocRefused.TheVariants.{NoMemory};
ghost use Rattle.aol_model_types.specs.declared.place.Key.TheVariants.{KOut};
ghost use Rattle.aol_model_types.specs.Reading.{width_at, type_at, port_at, input_port_at, output_port_at, outputs_of, member_at, within, max_ports};
ghost use Rattle.aol_model_types.specs.Types.{IsCounted, IsReadPort, IsReadOutPort};
ghost use Rattle.aol_shape.specs.declared.limit.LimitName.TheVariants.{Ports};
ghost use Rattle.aol_shape.specs.Texts.{is_name};
ghost use Rattle.aol_document_reading.specs.Parts.{given_head, head_at};
ghost use Rattle.aol_document_reading.specs.Trails.{steps_of};

use crate::reading::forms::{filled_elements_of, has_key, member_of, object_of, text_of};
use crate::reading::from_tree::{FromTree, Reader};
use crate::reading::texts::same_text;
use crate::reading::trail::Trail;
use aol_expr::{Port, Width};
use aol_model_types::limits::MAX_PORTS;
use aol_model_types::{DocRefused, Key, OutPort};
use aol_shape::{Items, LimitName, Name};
use serde_json::Value;
use std::alloc::Global;

/// A type by its text.
fn width_of(at: &Trail<'_>, tree: &Value) -> Result<Width, DocRefused>
    requires { length (steps_of at.now) ≤ 12 }
    ensures { Gives result (width_at (steps_of at.now) (view tree.now)) }
{
    let text = text_of(at, tree)?;
    if same_text(text, "int16") {
        Ok(Width::Int16)
    } else if same_text(text, "int32") {
        Ok(Width::Int32)
    } else if same_text(text, "int64") {
        Ok(Width::Int64)
    } else {
        Err(DocRefused::Grammar(at.place()))
    }
}

/// The type of a port: 64 bits where none is written.
fn type_of(at: &Trail<'_>, tree: &Value) -> Result<Width, DocRefused>
    requires { length (steps_of at.now) < 12 }
    ensures { Gives result (type_at (steps_of at.now) (view tree.now)) }
{
    if !has_key(tree, Key::KType) {
        return Ok(Width::Int64);
    }
    width_of(
        &Trail::Key(at, Key::KType),
        member_of(at, tree, Key::KType)?,
    )
}

impl FromTree for Port {
    ghost reading = { λ later. port_at };

    ghost guarantees = { IsReadPort };

    ghost depth = { 1 };

    fn from_tree(reader: Reader, at: &Trail<'_>, tree: &Value) -> Result<Port, DocRefused> {
        object_of(at, tree, &[Key::KName, Key::KShape], &[])?;
        Ok(Port {
            name: reader.member(at, tree, Key::KName)?,
            shape: reader.member(at, tree, Key::KShape)?,
        })
    }
}

impl FromTree for (Port, Width) {
    ghost reading = { λ later. input_port_at };

    ghost guarantees = { λ p. IsReadPort p.0 };

    ghost depth = { 1 };

    fn from_tree(
        reader: Reader,
        at: &Trail<'_>,
        tree: &Value,
    ) -> Result<(Port, Width), DocRefused> {
        object_of(at, tree, &[Key::KName, Key::KShape], &[Key::KType])?;
        let name = reader.member(at, tree, Key::KName)?;
        let shape = reader.member(at, tree, Key::KShape)?;
        let width = type_of(at, tree)?;
        Ok((Port { name, shape }, width))
    }
}

impl FromTree for (OutPort, Width) {
    ghost reading = { λ later. output_port_at };

    ghost guarantees = { λ p. IsReadOutPort p.0 };

    ghost depth = { 1 };

    fn from_tree(
        reader: Reader,
        at: &Trail<'_>,
        tree: &Value,
    ) -> Result<(OutPort, Width), DocRefused> {
        object_of(
            at,
            tree,
            &[Key::KName, Key::KShape, Key::KExpr],
            &[Key::KType],
        )?;
        let name = reader.member(at, tree, Key::KName)?;
        let shape = reader.member(at, tree, Key::KShape)?;
        let width = type_of(at, tree)?;
        let expr = reader.member(at, tree, Key::KExpr)?;
        let port = Port { name, shape };
        Ok((OutPort { port, expr }, width))
    }
}

/// A task can have so many inputs and outputs.
fn within_ports(at: &Trail<'_>, inputs: usize, outputs: usize) -> Result<(), DocRefused>
    requires inputs { inputs < 2 ^ 32 }
    requires depth { length (steps_of at.now) ≤ 12 }
    ensures { Gives result (within (steps_of at.now) Ports (nat_le (inputs + outputs) max_ports)) }
{
    if outputs > MAX_PORTS || inputs + outputs > MAX_PORTS {
        return Err(DocRefused::Limit(at.place(), LimitName::Ports));
    }
    Ok(())
}

impl Reader {
    /// The outputs of a task that has these inputs.
    pub fn outputs<A, T: FromTree>(
        self,
        at: &Trail<'_>,
        tree: &Value,
        ins: &Vec<A>,
    ) -> Result<Vec<T>, DocRefused>
        requires inputs { IsCounted ins.now.items }
        requires depth { length (steps_of at.now) + T.depth + 1 < 12 }
        ensures read { Gives (given_items result) (member_at (steps_of at.now) (view tree.now) KOut (outputs_of (length ins.now.items) (T.reading self.later))) }
        ensures types { IfOk result (λ v. AllByRecursion T.guarantees v.items) }
        ensures count { IfOk result (λ v. IsCounted v.items) }
        ensures filled { IfOk result (λ v. 1 ≤ length v.items) }
    {
        let value = member_of(at, tree, Key::KOut)?;
        let at = Trail::Key(at, Key::KOut);
        let trees = filled_elements_of(&at, value)?;
        within_ports(&at, ins.len(), trees.len())?;
        self.elements(&at, trees)
    }
}

impl Reader {
    /// The name of a task, its inputs and its outputs.
    pub fn head<I: FromTree, O: FromTree>(
        self,
        at: &Trail<'_>,
        tree: &Value,
    ) -> Result<(Name, Vec<I>, Vec<O>), DocRefused>
        requires inputs { length (steps_of at.now) + I.depth + 1 < 12 }
        requires outputs { length (steps_of at.now) + O.depth + 1 < 12 }
        ensures read { Gives (given_head result) (head_at (I.reading self.later) (O.reading self.later) (steps_of at.now) (view tree.now)) }
        ensures name { IfOk result (λ h. is_name h.0 ≡ true) }
        ensures ins { IfOk result (λ h. AllByRecursion I.guarantees h.1.items × IsCounted h.1.items) }
        ensures outs { IfOk result (λ h. AllByRecursion O.guarantees h.2.items × IsCounted h.2.items) }
        ensures filled { IfOk result (λ h. 1 ≤ length h.2.items) }
    {
        let name = self.member(at, tree, Key::KName)?;
        let ins = self.inputs(at, tree)?;
        let outs = self.outputs(at, tree, &ins)?;
        Ok((name, ins, outs))
    }
}

/// The first members of pairs, and the second.
pub(super) fn unzipped<A: Drop, B: Drop>(
    alloc: Global,
    pairs: Vec<(A, B)>,
) -> Result<(Items<A>, Items<B>), DocRefused>
    ensures firsts { IfOk result (λ r. r.0 ≡ map (λ p. p.0) pairs.items) }
    ensures seconds { IfOk result (λ r. r.1 ≡ map (λ p. p.1) pairs.items) }
    ensures memory { IfErr result (λ e. e ≡ NoMemory) }
{
    let mut firsts = Vec::with_capacity(alloc, pairs.len())?;
    let mut seconds = Vec::with_capacity(alloc, pairs.len())?;
    for (first, second) in pairs {
        firsts.push(first)?;
        seconds.push(second)?;
    }
    Ok((Items::from_vec(firsts), Items::from_vec(seconds)))
}
