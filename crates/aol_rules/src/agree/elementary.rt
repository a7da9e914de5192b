ghost use Rattle.std.specs.Prelude.{◌≡◌, ◌<◌, ◌++◌, length, map};
ghost use Rattle.aol_model_types.specs.Rules.{output_checks, is_new_port, has_names, elementary_checks};
ghost use Rattle.aol_model_types.specs.Types.{IsElementary};
ghost use Rattle.aol_rules.specs.Walk.{Tells};

use crate::agree::ports::{Inputs, has_out, has_port};
use crate::agree::walk::{MemberRules, require, test_each};
use aol_expr_tree::names_ok;
use aol_model_types::{Elementary, Key, Misfit, OutPort, Path, rules};

/// The outputs of a task that computes, after its inputs.
#[derive(Drop)]
struct Computed<'a> {
    task: &'a Elementary,
}

impl Computed<'_> {
    #[tactic(auto, using(aol_model_types::proofs::PortNames::new_behind))]
    fn is_new(&self, earlier: &[OutPort], output: &OutPort) -> bool
        ensures { result ≡ is_new_port (self.now.task.now.ins ++ map (λ q. q.port) earlier.now) output.now.port }
    {
        let name = &output.port.name;
        !has_port(self.task.ins.as_slice(), name) && !has_out(earlier, name)
    }

    fn has_names(&self, output: &OutPort) -> bool
        ensures { result ≡ has_names self.now.task.now output.now }
    {
        let rank = output.port.shape.as_slice().len() as u32;
        names_ok(&output.expr, &self.task.ins, rank)
    }
}

impl MemberRules<OutPort> for Computed<'_> {
    ghost checks = { λ s. output_checks s.task.now };

    ghost Stands = { λ _ _. Unit {0} };

    fn test(&self, at: &Path, earlier: &[OutPort], member: &OutPort) -> Result<(), Misfit> {
        require(
            at.to_key(Key::KName),
            rules::PORT_NAMES_DIFFER,
            self.is_new(earlier, member),
        )?;
        require(
            at.to_key(Key::KExpr),
            rules::EXPRESSION_NAMES_ARE_THERE,
            self.has_names(member),
        )
    }
}

/// Tests a task that computes.
#[tactic(auto, using(crate::proofs::Walks::passed, crate::proofs::Walks::failed))]
pub fn test_elementary(at: &Path, task: &Elementary) -> Result<(), Misfit>
    requires depth { length at.now < 8 }
    requires types { IsElementary task.now }
    ensures { Tells result (elementary_checks at.now task.now) }
{
    test_each(&Inputs, &at.to_key(Key::KIn), &task.ins)?;
    test_each(&Computed { task }, &at.to_key(Key::KOut), &task.outs)
}
