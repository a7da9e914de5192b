ghost use Rattle.std.specs.Prelude.{◌≡◌, ◌<◌, ◌++◌, ◌∷◌, [], not, length};
ghost use Rattle.std.specs.List.{list_all, list_any};
ghost use Rattle.std.specs.Option.{option_copied};
ghost use Rattle.aol_shape.specs.Lists.{same};
ghost use Rattle.aol_link.specs.Links.{is_always, is_below};
ghost use Rattle.aol_model_types.specs.Rules.{is_on_ports, tiler_fits, tiles_output_once, links_inner, spans_space, fallback_fits, defaults_fit, ends_with_always, has_last_resort, has_dimensions, inner_is_fed, all_inner_fed, is_tiled, port_shape, inputs_named, outputs_named, tiler_checks, interlink_checks, check, repeated_checks};
ghost use Rattle.aol_model_types.specs.Types.{IsRepeated};
ghost use Rattle.aol_rules.specs.Walk.{Tells, tiling_checks, tiled_checks, repetition_checks};

use crate::agree::ports::{Inputs, Outputs, are_equal, fits_in, has_port, shape_of};
use crate::agree::tasks::{Earlier, inputs_of};
use crate::agree::walk::{MemberRules, require, test_each};
use aol_expr_tree::Port;
use aol_link::{Choice, Fallback, Interlink, When};
use aol_model_types::{Key, Misfit, Path, Repeated, TilerOn, rules};
use aol_shape::{Name, Shape, are_same};

/// Whether a choice is for all repetitions.
fn is_always(when: When) -> bool
    ensures { result ≡ is_always when }
{
    matches!(when, When::Always)
}

/// Whether the dimension of a choice is below the rank.
fn is_below(rank: usize, when: When) -> bool
    ensures { result ≡ is_below rank when }
{
    match when {
        When::Always => true,
        When::Low(k) => (k as usize) < rank,
        When::High(k) => (k as usize) < rank,
    }
}

/// Whether no choice is for all repetitions.
fn are_never_always(choices: &[Choice]) -> bool
    ensures { result ≡ list_all (λ c. not (is_always c.when)) choices.now }
{
    choices.iter().all(|choice| !is_always(choice.when))
}

/// Whether the last choice and no other is for all repetitions.
#[tactic(auto, using(crate::proofs::Choices::ends_behind))]
fn ends_with_always(choices: &[Choice]) -> bool
    ensures { result ≡ ends_with_always choices.now }
{
    match choices.split_last() {
        None => false,
        Some((last, others)) => is_always(last.when) && are_never_always(others),
    }
}

/// Whether a tiler is on this inner port.
fn is_on(tilers: &[TilerOn], inner: &Name) -> bool
    ensures { result ≡ list_any (λ e. same e.inner inner.now) tilers.now }
{
    tilers.iter().any(|tiler| are_same(&tiler.inner, inner))
}

/// A repetition after the tasks that it can repeat.
#[derive(Drop)]
struct Repetition<'a> {
    earlier: Earlier<'a>,
    repeated: &'a Repeated,
}

impl<'a> Repetition<'a> {
    fn inner_input(&self, name: &Name) -> Option<&'a Shape>
        ensures { option_copied result ≡ port_shape (inputs_named self.now.earlier.tasks.now self.now.repeated.now.task) name.now }
    {
        self.earlier.input_shape(&self.repeated.task, name)
    }

    fn inner_output(&self, name: &Name) -> Option<&'a Shape>
        ensures { option_copied result ≡ port_shape (outputs_named self.now.earlier.tasks.now self.now.repeated.now.task) name.now }
    {
        self.earlier.output_shape(&self.repeated.task, name)
    }

    #[tactic(auto, using(aol_model_types::proofs::PortNames::port_behind))]
    fn inner_shape(&self, name: &Name) -> Option<&'a Shape>
        ensures { option_copied result ≡ port_shape (inputs_named self.now.earlier.tasks.now self.now.repeated.now.task ++ outputs_named self.now.earlier.tasks.now self.now.repeated.now.task) name.now }
    {
        self.inner_input(name).or(self.inner_output(name))
    }

    #[tactic(auto, using(aol_model_types::proofs::PortNames::port_behind))]
    fn outer_shape(&self, name: &Name) -> Option<&'a Shape>
        ensures { option_copied result ≡ port_shape (self.now.repeated.now.ins ++ self.now.repeated.now.outs) name.now }
    {
        let input = shape_of(self.repeated.ins.as_slice(), name);
        input.or(shape_of(self.repeated.outs.as_slice(), name))
    }

    fn is_on_ports(&self, tiler: &TilerOn) -> bool
        ensures { result ≡ is_on_ports self.now.earlier.tasks.now self.now.repeated.now tiler.now }
    {
        let repeated = self.repeated;
        (has_port(repeated.ins.as_slice(), &tiler.outer)
            && self.inner_input(&tiler.inner).is_some())
            || (has_port(repeated.outs.as_slice(), &tiler.outer)
                && self.inner_output(&tiler.inner).is_some())
    }

    fn tiler_fits(&self, tiler: &TilerOn) -> bool
        ensures { result ≡ tiler_fits self.now.earlier.tasks.now self.now.repeated.now tiler.now }
    {
        fits_in(
            &tiler.tiler,
            self.outer_shape(&tiler.outer),
            &self.repeated.space,
            self.inner_shape(&tiler.inner),
        )
    }

    fn tiles_output_once(&self, earlier: &[TilerOn], tiler: &TilerOn) -> bool
        ensures { result ≡ tiles_output_once self.now.earlier.tasks.now self.now.repeated.now earlier.now tiler.now }
    {
        self.inner_output(&tiler.inner).is_none() || !is_on(earlier, &tiler.inner)
    }

    fn links_inner(&self, link: &Interlink) -> bool
        ensures { result ≡ links_inner self.now.earlier.tasks.now self.now.repeated.now link.now }
    {
        are_equal(self.inner_output(&link.from), self.inner_input(&link.to))
    }

    fn spans_space(&self, link: &Interlink) -> bool
        ensures { result ≡ spans_space self.now.repeated.now link.now }
    {
        link.distance.as_slice().len() == self.repeated.space.as_slice().len()
    }

    fn fallback_fits(&self, link: &Interlink, fallback: &Fallback) -> bool
        ensures { result ≡ fallback_fits self.now.earlier.tasks.now self.now.repeated.now link.now fallback.now }
    {
        match fallback {
            Fallback::Number(_) => true,
            Fallback::Tiled { outer, tiler } => fits_in(
                tiler,
                shape_of(self.repeated.ins.as_slice(), outer),
                &self.repeated.space,
                self.inner_input(&link.to),
            ),
        }
    }

    fn defaults_fit(&self, link: &Interlink) -> bool
        ensures { result ≡ defaults_fit self.now.earlier.tasks.now self.now.repeated.now link.now }
    {
        link.rest
            .as_slice()
            .iter()
            .all(|choice| self.fallback_fits(link, &choice.take))
    }

    fn has_dimensions(&self, link: &Interlink) -> bool
        ensures { result ≡ has_dimensions self.now.repeated.now link.now }
    {
        let rank = self.repeated.space.as_slice().len();
        link.rest
            .as_slice()
            .iter()
            .all(|choice| is_below(rank, choice.when))
    }

    #[tactic(auto, using(crate::proofs::Choices::one_of_two))]
    fn inner_is_fed(&self, input: &Port) -> bool
        ensures { result ≡ inner_is_fed self.now.repeated.now input.now }
    {
        let repeated = self.repeated;
        let tilers = repeated
            .tilers
            .as_slice()
            .iter()
            .filter(|tiler| are_same(&tiler.inner, &input.name))
            .count();
        let links = repeated
            .links
            .as_slice()
            .iter()
            .filter(|link| are_same(&link.to, &input.name))
            .count();
        (tilers == 1 && links == 0) || (tilers == 0 && links == 1)
    }

    fn all_inner_fed(&self) -> bool
        ensures { result ≡ all_inner_fed self.now.earlier.tasks.now self.now.repeated.now }
    {
        match self.earlier.named(&self.repeated.task) {
            None => true,
            Some(task) => inputs_of(task).iter().all(|input| self.inner_is_fed(input)),
        }
    }

    fn is_tiled(&self, output: &Port) -> bool
        ensures { result ≡ is_tiled self.now.repeated.now output.now }
    {
        self.repeated
            .tilers
            .as_slice()
            .iter()
            .any(|tiler| are_same(&tiler.outer, &output.name))
    }
}

impl MemberRules<TilerOn> for Repetition<'_> {
    ghost checks = { λ s. tiler_checks s.earlier.tasks.now s.repeated.now };

    ghost Stands = { λ _ _. Unit {0} };

    fn test(&self, at: &Path, earlier: &[TilerOn], member: &TilerOn) -> Result<(), Misfit> {
        require(
            at.copy(),
            rules::TILER_IS_ON_PORTS,
            self.is_on_ports(member),
        )?;
        require(
            at.copy(),
            rules::INNER_OUTPUT_IS_TILED_ONCE,
            self.tiles_output_once(earlier, member),
        )?;
        require(
            at.to_key(Key::KTiler),
            rules::TILER_FITS,
            self.tiler_fits(member),
        )
    }
}

impl MemberRules<Interlink> for Repetition<'_> {
    ghost checks = { λ s. interlink_checks s.earlier.tasks.now s.repeated.now };

    ghost Stands = { λ _ _. Unit {0} };

    fn test(&self, at: &Path, _: &[Interlink], member: &Interlink) -> Result<(), Misfit> {
        require(
            at.copy(),
            rules::INTERLINK_JOINS_INNER_PORTS,
            self.links_inner(member),
        )?;
        require(
            at.to_key(Key::KDistance),
            rules::DISTANCE_SPANS_SPACE,
            self.spans_space(member),
        )?;
        require(
            at.to_key(Key::KDefault),
            rules::DEFAULT_FITS,
            self.defaults_fit(member),
        )?;
        let has_last_resort = member.wrap || ends_with_always(member.rest.as_slice());
        require(
            at.to_key(Key::KDefault),
            rules::LAST_CHOICE_IS_ALWAYS,
            has_last_resort,
        )?;
        require(
            at.to_key(Key::KDefault),
            rules::CHOICE_DIMENSION_IS_IN_SPACE,
            self.has_dimensions(member),
        )
    }
}

impl MemberRules<Port> for Repetition<'_> {
    ghost checks = { λ s. tiled_checks s.repeated.now };

    ghost Stands = { λ _ _. Unit {0} };

    fn test(&self, at: &Path, _: &[Port], member: &Port) -> Result<(), Misfit> {
        require(at.copy(), rules::OWN_OUTPUT_IS_TILED, self.is_tiled(member))
    }
}

/// Tests the ports, the task and the tilers of a repetition.
#[tactic(auto, using(crate::proofs::Walks::passed, crate::proofs::Walks::failed))]
fn test_tiling(at: &Path, repetition: &Repetition) -> Result<(), Misfit>
    requires depth { length at.now < 8 }
    requires types { IsRepeated repetition.now.repeated.now }
    ensures { Tells result (tiling_checks repetition.now.earlier.tasks.now at.now repetition.now.repeated.now) }
{
    let repeated = repetition.repeated;
    test_each(&Inputs, &at.to_key(Key::KIn), &repeated.ins)?;
    let outputs = Outputs { ins: &repeated.ins };
    test_each(&outputs, &at.to_key(Key::KOut), &repeated.outs)?;
    let is_earlier = repetition.earlier.has(&repeated.task);
    require(
        at.to_key(Key::KTask),
        rules::REPEATED_TASK_IS_EARLIER,
        is_earlier,
    )?;
    test_each(repetition, &at.to_key(Key::KTilers), &repeated.tilers)
}

/// Tests the members of a repetition, and then what feeds its inner inputs and its outputs.
#[tactic(auto, using(crate::proofs::Walks::passed, crate::proofs::Walks::failed))]
fn test_repetition(at: &Path, repetition: &Repetition) -> Result<(), Misfit>
    requires depth { length at.now < 8 }
    requires types { IsRepeated repetition.now.repeated.now }
    ensures { Tells result (repetition_checks repetition.now.earlier.tasks.now at.now repetition.now.repeated.now) }
{
    let repeated = repetition.repeated;
    test_tiling(at, repetition)?;
    test_each(repetition, &at.to_key(Key::KLinks), &repeated.links)?;
    require(
        at.to_key(Key::KTask),
        rules::INNER_INPUTS_ARE_FED,
        repetition.all_inner_fed(),
    )?;
    test_each(repetition, &at.to_key(Key::KOut), &repeated.outs)
}

/// Tests a repetition after the tasks that it can repeat.
pub fn test_repeated(at: &Path, earlier: Earlier, repeated: &Repeated) -> Result<(), Misfit>
    requires depth { length at.now < 8 }
    requires types { IsRepeated repeated.now }
    ensures { Tells result (repeated_checks earlier.entry.tasks.now at.now repeated.now) }
{
    let repetition = Repetition { earlier, repeated };
    test_repetition(at, &repetition)
}
