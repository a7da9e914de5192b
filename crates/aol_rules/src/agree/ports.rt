ghost use Rattle.std.specs.Prelude.{◌≡◌, ◌++◌, [], map, is_some};
ghost use Rattle.std.specs.List.{find};
ghost use Rattle.std.specs.Option.{option_copied};
ghost use Rattle.aol_shape.specs.Lists.{same};
ghost use Rattle.aol_model_types.specs.Rules.{port_shape, port_checks, is_new_port, same_shapes, fits_in};

use crate::agree::walk::{MemberRules, require};
use aol_expr_tree::Port;
use aol_model_types::{Key, Misfit, OutPort, Path, rules};
use aol_shape::{Items, Name, Shape, are_same};
use aol_tiler::Tiler;

/// The shape of the port with this name.
pub fn shape_of<'a>(ports: &'a [Port], name: &Name) -> Option<&'a Shape>
    ensures { option_copied result ≡ port_shape ports.now name.now }
{
    ports
        .iter()
        .find(|port| are_same(&port.name, name))
        .map(|port| &port.shape)
}

/// The output with this name.
fn out_named<'a>(outs: &'a [OutPort], name: &Name) -> Option<&'a OutPort>
    ensures { option_copied result ≡ find (λ o. same o.port.name name.now) outs.now }
{
    outs.iter().find(|out| are_same(&out.port.name, name))
}

/// The shape of the output with this name.
#[tactic(auto, using(aol_model_types::proofs::PortNames::out_found, aol_model_types::proofs::PortNames::out_missing))]
pub fn shape_of_out<'a>(outs: &'a [OutPort], name: &Name) -> Option<&'a Shape>
    ensures { option_copied result ≡ port_shape (map (λ o. o.port) outs.now) name.now }
{
    let out = out_named(outs, name)?;
    Some(&out.port.shape)
}

/// Whether a port has this name.
pub fn has_port(ports: &[Port], name: &Name) -> bool
    ensures { result ≡ is_some (port_shape ports.now name.now) }
{
    shape_of(ports, name).is_some()
}

/// Whether an output has this name.
pub fn has_out(outs: &[OutPort], name: &Name) -> bool
    ensures { result ≡ is_some (port_shape (map (λ o. o.port) outs.now) name.now) }
{
    shape_of_out(outs, name).is_some()
}

/// Whether both shapes are there, and equal.
#[tactic(auto, using(aol_shape::proofs::SameTexts::pointwise_same))]
pub fn are_equal(one: Option<&Shape>, other: Option<&Shape>) -> bool
    ensures { result ≡ same_shapes (option_copied one.entry) (option_copied other.entry) }
{
    let Some(one) = one else { return false };
    let Some(other) = other else { return false };
    one.as_slice() == other.as_slice()
}

/// Whether the tiler fits an array and a pattern that are there, and the space.
pub fn fits_in(tiler: &Tiler, array: Option<&Shape>, space: &Shape, pattern: Option<&Shape>) -> bool
    ensures { result ≡ fits_in tiler.now (option_copied array.entry) space.now (option_copied pattern.entry) }
{
    let Some(array) = array else { return false };
    let Some(pattern) = pattern else { return false };
    tiler.fits(array, space, pattern)
}

/// The inputs of a task.
#[derive(Drop)]
pub struct Inputs;

impl MemberRules<Port> for Inputs {
    ghost checks = { λ _. port_checks [] };

    ghost Stands = { λ _ _. Unit {0} };

    fn test(&self, at: &Path, earlier: &[Port], member: &Port) -> Result<(), Misfit> {
        let is_new = !has_port(earlier, &member.name);
        require(at.to_key(Key::KName), rules::PORT_NAMES_DIFFER, is_new)
    }
}

/// The outputs of a compound or a repetition, after its inputs.
#[derive(Drop)]
pub struct Outputs<'a> {
    pub ins: &'a Items<Port>,
}

impl Outputs<'_> {
    #[tactic(auto, using(aol_model_types::proofs::PortNames::new_behind))]
    fn is_new(&self, earlier: &[Port], port: &Port) -> bool
        ensures { result ≡ is_new_port (self.now.ins.now ++ earlier.now) port.now }
    {
        !has_port(self.ins.as_slice(), &port.name) && !has_port(earlier, &port.name)
    }
}

impl MemberRules<Port> for Outputs<'_> {
    ghost checks = { λ s. port_checks s.ins.now };

    ghost Stands = { λ _ _. Unit {0} };

    fn test(&self, at: &Path, earlier: &[Port], member: &Port) -> Result<(), Misfit> {
        require(
            at.to_key(Key::KName),
            rules::PORT_NAMES_DIFFER,
            self.is_new(earlier, member),
        )
    }
}
