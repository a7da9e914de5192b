ghost use Rattle.std.specs.Prelude.{◌≡◌, ◌<◌, ◌∷◌, [], ◌&&◌, map, length, count_by, Some, unwrap_or};
ghost use Rattle.std.specs.List.{list_any, find};
ghost use Rattle.std.specs.Option.{option_copied, ForSome};
ghost use Rattle.aol_shape.specs.Lists.{same};
ghost use Rattle.aol_model_types.specs.Rules.{same_part, same_hook, part_named, from_shape, to_shape, is_fed, is_new_part, gives, takes, meets_part, joins_equal, hands_up, hands_up_once, source_fits, target_fits, part_is_fed, output_is_fed, part_checks, plain_checks, copied_checks, check, compound_checks};
ghost use Rattle.aol_rules.specs.Names.{Finds, IsFront, holds_at, part_of_link, part_of_reshape};
ghost use Rattle.aol_model_types.specs.declared.task.Hook.{Hook};
ghost use Rattle.aol_model_types.specs.Types.{IsCompound};
ghost use Rattle.aol_rules.specs.Walk.{Tells, part_list_checks, member_checks, fed_part_checks, fed_output_checks, graph_checks};

use crate::agree::names::{Index, Named};
use crate::agree::ports::{Inputs, Outputs, are_equal, fits_in, shape_of};
use crate::agree::tasks::{Earlier, inputs_of};
use crate::agree::walk::{MemberRules, require, test_each};
use aol_expr_tree::Port;
use aol_model_types::{Compound, Copied, Hook, Key, Misfit, Part, Path, Plain, rules};
use aol_shape::{Name, Shape, are_same};
use std::alloc::Global;

/// Whether both ends are at one part, or both are the compound's own.
fn are_at_same(one: Option<&Name>, other: Option<&Name>) -> bool
    ensures { result ≡ same_part (option_copied one.entry) (option_copied other.entry) }
{
    match one {
        None => other.is_none(),
        Some(one) => match other {
            None => false,
            Some(other) => are_same(one, other),
        },
    }
}

/// Whether an end is this port of this part, or the compound's own.
fn is_at(hook: &Hook, part: Option<&Name>, port: &Name) -> bool
    ensures { result ≡ same_hook hook.now (record { part = option_copied part.entry; port = port.now }) }
{
    are_at_same(hook.part.as_ref(), part) && are_same(&hook.port, port)
}

/// Whether two ends are the same.
fn are_same_hooks(one: &Hook, other: &Hook) -> bool
    ensures { result ≡ same_hook one.now other.now }
{
    is_at(one, other.part.as_ref(), &other.port)
}

/// Whether a link goes from a part's output to an own output.
fn hands_up(link: &Plain) -> bool
    ensures { result ≡ hands_up link.now }
{
    link.from.part.is_some() && link.to.part.is_none()
}

/// The part with this name, by a look at each.
fn part_named<'a>(parts: &'a [Part], name: &Name) -> Option<&'a Part>
    ensures { option_copied result ≡ find (λ p. same p.name name.now) parts.now }
{
    parts.iter().find(|part| are_same(&part.name, name))
}

impl Named for Part {
    ghost name = { λ p. p.name };

    fn name(&self) -> &str {
        self.name.as_str()
    }
}

/// The name of a part, or else another text.
fn text_or<'a>(part: &'a Option<Name>, other: &'a str) -> &'a str
    ensures { result.now ≡ unwrap_or part.now other.now }
{
    match part {
        None => other,
        Some(part) => part.as_str(),
    }
}

impl Named for Plain {
    ghost name = { part_of_link };

    fn name(&self) -> &str {
        text_or(&self.to.part, text_or(&self.from.part, ""))
    }
}

impl Named for Copied {
    ghost name = { part_of_reshape };

    fn name(&self) -> &str {
        text_or(&self.to.part, "")
    }
}

/// What ends somewhere.
trait Ends {
    ghost to: { Self → Hook };

    fn to(&self) -> &Hook
        ensures { result.now ≡ to self.now };
}

impl Ends for Plain {
    ghost to = { λ l. l.to };

    fn to(&self) -> &Hook {
        &self.to
    }
}

impl Ends for Copied {
    ghost to = { λ l. l.to };

    fn to(&self) -> &Hook {
        &self.to
    }
}

/// How many of the links end there.
fn count_ends<T: Ends>(links: &[T], part: Option<&Name>, port: &Name) -> usize
    ensures { result ≡ count_by (λ l. same_hook (T.to l) (record { part = option_copied part.entry; port = port.now })) links.now }
{
    links
        .iter()
        .filter(|link| is_at(link.to(), part, port))
        .count()
}

/// Whether the link at a place ends there.
fn ends_there<T: Ends>(links: &[T], place: usize, part: &Name, port: &Name) -> bool
    ensures { result ≡ holds_at (λ l. same_hook (T.to l) (record { part = Some part.now; port = port.now })) links.now place }
{
    match links.get(place) {
        None => false,
        Some(link) => is_at(link.to(), Some(part), port),
    }
}

/// How many of the links at these places end there.
fn count_ends_at<T: Ends>(links: &[T], places: &[usize], part: &Name, port: &Name) -> usize
    ensures { result ≡ count_by (holds_at (λ l. same_hook (T.to l) (record { part = Some part.now; port = port.now })) links.now) places.now }
{
    places
        .iter()
        .filter(|place| ends_there(links, **place, part, port))
        .count()
}

/// The places of a compound's parts, links and reshapes, where memory allowed an index.
#[derive(Drop)]
struct Indexes {
    parts: Option<Index>,
    links: Option<Index>,
    reshapes: Option<Index>,
}

/// A compound after the tasks that its parts can name.
#[derive(Clone, Copy)]
struct Graph<'a> {
    earlier: Earlier<'a>,
    compound: &'a Compound,
    indexes: &'a Indexes,
    ghost parts: { ForSome indexes.now.parts (λ i. Finds (map (λ p. p.name) compound.now.parts) i.places) },
    ghost links: { ForSome indexes.now.links (λ i. Finds (map part_of_link compound.now.links) i.places) },
    ghost reshapes: { ForSome indexes.now.reshapes (λ i. Finds (map part_of_reshape compound.now.reshapes) i.places) },
}

impl<'a> Graph<'a> {
    fn part_named(&self, name: &Name) -> Option<&'a Part>
        ensures { option_copied result ≡ part_named self.now.compound.now name.now }
    {
        let parts = self.compound.parts.as_slice();
        match &self.indexes.parts {
            None => part_named(parts, name),
            Some(index) => index.member(parts, name),
        }
    }

    /// Whether no earlier part has the name.
    fn is_new_part(&self, earlier: &[Part], part: &Part) -> bool
        requires { IsFront earlier.now self.now.compound.now.parts }
        ensures { result ≡ is_new_part earlier.now part.now }
    {
        match &self.indexes.parts {
            None => !has_part(earlier, &part.name),
            Some(index) => !index.is_within(earlier.len(), &part.name),
        }
    }

    /// Whether an earlier link hands this output of a part up.
    fn is_handed_up(&self, earlier: &[Plain], from: &Hook) -> bool
        requires { IsFront earlier.now self.now.compound.now.links }
        ensures { result ≡ list_any (λ k. hands_up k && same_hook k.from from.now) earlier.now }
    {
        match &from.part {
            None => is_handed_up(earlier, from),
            Some(name) => match &self.indexes.links {
                None => is_handed_up(earlier, from),
                Some(index) => is_handed_up_in(earlier, index.places(name), from),
            },
        }
    }

    /// Whether no earlier link hands the same output up.
    fn hands_up_once(&self, earlier: &[Plain], link: &Plain) -> bool
        requires { IsFront earlier.now self.now.compound.now.links }
        ensures { result ≡ hands_up_once earlier.now link.now }
    {
        !hands_up(link) || !self.is_handed_up(earlier, &link.from)
    }

    /// The shape of what an end gives: an own input, or an output of a part.
    fn from_shape(&self, hook: &Hook) -> Option<&'a Shape>
        ensures { option_copied result ≡ from_shape self.now.earlier.tasks.now self.now.compound.now hook.now }
    {
        match &hook.part {
            None => shape_of(self.compound.ins.as_slice(), &hook.port),
            Some(part) => {
                let part = self.part_named(part)?;
                self.earlier.output_shape(&part.task, &hook.port)
            }
        }
    }

    /// The shape of what an end takes: an own output, or an input of a part.
    fn to_shape(&self, hook: &Hook) -> Option<&'a Shape>
        ensures { option_copied result ≡ to_shape self.now.earlier.tasks.now self.now.compound.now hook.now }
    {
        match &hook.part {
            None => shape_of(self.compound.outs.as_slice(), &hook.port),
            Some(part) => {
                let part = self.part_named(part)?;
                self.earlier.input_shape(&part.task, &hook.port)
            }
        }
    }

    fn gives(&self, hook: &Hook) -> bool
        ensures { result ≡ gives self.now.earlier.tasks.now self.now.compound.now hook.now }
    {
        self.from_shape(hook).is_some()
    }

    fn takes(&self, hook: &Hook) -> bool
        ensures { result ≡ takes self.now.earlier.tasks.now self.now.compound.now hook.now }
    {
        self.to_shape(hook).is_some()
    }

    fn joins_equal(&self, link: &Plain) -> bool
        ensures { result ≡ joins_equal self.now.earlier.tasks.now self.now.compound.now link.now }
    {
        are_equal(self.from_shape(&link.from), self.to_shape(&link.to))
    }

    fn source_fits(&self, reshape: &Copied) -> bool
        ensures { result ≡ source_fits self.now.earlier.tasks.now self.now.compound.now reshape.now }
    {
        let by = &reshape.by;
        fits_in(
            &by.source,
            self.from_shape(&reshape.from),
            &by.space,
            Some(&by.pattern),
        )
    }

    fn target_fits(&self, reshape: &Copied) -> bool
        ensures { result ≡ target_fits self.now.earlier.tasks.now self.now.compound.now reshape.now }
    {
        let by = &reshape.by;
        fits_in(
            &by.target,
            self.to_shape(&reshape.to),
            &by.space,
            Some(&by.pattern),
        )
    }
}

/// Whether a part has this name.
fn has_part(parts: &[Part], name: &Name) -> bool
    ensures { result ≡ list_any (λ q. same q.name name.now) parts.now }
{
    parts.iter().any(|part| are_same(&part.name, name))
}

/// Whether one of the links hands this output of a part up.
fn is_handed_up(links: &[Plain], from: &Hook) -> bool
    ensures { result ≡ list_any (λ k. hands_up k && same_hook k.from from.now) links.now }
{
    links
        .iter()
        .any(|link| hands_up(link) && are_same_hooks(&link.from, from))
}

/// Whether the link at a place hands this output of a part up.
fn is_handed_up_at(links: &[Plain], place: usize, from: &Hook) -> bool
    ensures { result ≡ holds_at (λ k. hands_up k && same_hook k.from from.now) links.now place }
{
    match links.get(place) {
        None => false,
        Some(link) => hands_up(link) && are_same_hooks(&link.from, from),
    }
}

/// Whether one of the links at these places hands this output of a part up.
fn is_handed_up_in(links: &[Plain], places: &[usize], from: &Hook) -> bool
    ensures { result ≡ list_any (holds_at (λ k. hands_up k && same_hook k.from from.now) links.now) places.now }
{
    places
        .iter()
        .any(|place| is_handed_up_at(links, *place, from))
}

impl MemberRules<Part> for Graph<'_> {
    ghost checks = { λ s. part_checks s.earlier.tasks.now };

    ghost Stands = { λ s earlier. IsFront earlier s.compound.now.parts };

    fn test(&self, at: &Path, earlier: &[Part], member: &Part) -> Result<(), Misfit> {
        require(
            at.to_key(Key::KName),
            rules::PART_NAMES_DIFFER,
            self.is_new_part(earlier, member),
        )?;
        require(
            at.to_key(Key::KTask),
            rules::PART_TASK_IS_EARLIER,
            self.earlier.has(&member.task),
        )
    }
}

impl MemberRules<Plain> for Graph<'_> {
    ghost checks = { λ s. plain_checks s.earlier.tasks.now s.compound.now };

    ghost Stands = { λ s earlier. IsFront earlier s.compound.now.links };

    fn test(&self, at: &Path, earlier: &[Plain], member: &Plain) -> Result<(), Misfit> {
        require(
            at.to_key(Key::KFrom),
            rules::LINK_FROM_GIVES,
            self.gives(&member.from),
        )?;
        require(
            at.to_key(Key::KTo),
            rules::LINK_TO_TAKES,
            self.takes(&member.to),
        )?;
        let meets_part = member.from.part.is_some() || member.to.part.is_some();
        require(at.copy(), rules::LINK_MEETS_A_PART, meets_part)?;
        require(
            at.copy(),
            rules::LINK_SHAPES_ARE_EQUAL,
            self.joins_equal(member),
        )?;
        require(
            at.copy(),
            rules::OUTPUT_IS_HANDED_UP_ONCE,
            self.hands_up_once(earlier, member),
        )
    }
}

impl MemberRules<Copied> for Graph<'_> {
    ghost checks = { λ s. copied_checks s.earlier.tasks.now s.compound.now };

    ghost Stands = { λ _ _. Unit {0} };

    fn test(&self, at: &Path, _: &[Copied], member: &Copied) -> Result<(), Misfit> {
        require(
            at.to_key(Key::KFrom),
            rules::LINK_FROM_GIVES,
            self.gives(&member.from),
        )?;
        require(
            at.to_key(Key::KTo),
            rules::LINK_TO_TAKES,
            self.takes(&member.to),
        )?;
        require(
            at.to_key(Key::KSource),
            rules::RESHAPE_TILER_FITS,
            self.source_fits(member),
        )?;
        require(
            at.to_key(Key::KTarget),
            rules::RESHAPE_TILER_FITS,
            self.target_fits(member),
        )
    }
}

/// What feeds the inputs of a compound's parts and its own outputs.
#[derive(Drop)]
struct Feeds<'a> {
    graph: Graph<'a>,
}

impl Feeds<'_> {
    /// How many plain links end there.
    fn links_to(&self, part: Option<&Name>, port: &Name) -> usize
        ensures { result ≡ count_by (λ l. same_hook l.to (record { part = option_copied part.entry; port = port.now })) self.now.graph.compound.now.links }
    {
        let links = self.graph.compound.links.as_slice();
        match part {
            None => count_ends(links, part, port),
            Some(name) => match &self.graph.indexes.links {
                None => count_ends(links, part, port),
                Some(index) => count_ends_at(links, index.places(name), name, port),
            },
        }
    }

    /// How many reshapes end there.
    fn reshapes_to(&self, part: Option<&Name>, port: &Name) -> usize
        ensures { result ≡ count_by (λ l. same_hook l.to (record { part = option_copied part.entry; port = port.now })) self.now.graph.compound.now.reshapes }
    {
        let reshapes = self.graph.compound.reshapes.as_slice();
        match part {
            None => count_ends(reshapes, part, port),
            Some(name) => match &self.graph.indexes.reshapes {
                None => count_ends(reshapes, part, port),
                Some(index) => count_ends_at(reshapes, index.places(name), name, port),
            },
        }
    }

    /// Whether an end is fed by one plain link alone, or by reshapes alone.
    fn is_fed(&self, part: Option<&Name>, port: &Name) -> bool
        ensures { result ≡ is_fed self.now.graph.compound.now (record { part = option_copied part.entry; port = port.now }) }
    {
        let links = self.links_to(part, port);
        let reshapes = self.reshapes_to(part, port);
        (links == 1 && reshapes == 0) || (links == 0 && reshapes >= 1)
    }

    fn part_is_fed(&self, part: &Part) -> bool
        ensures { result ≡ part_is_fed self.now.graph.earlier.tasks.now self.now.graph.compound.now part.now }
    {
        match self.graph.earlier.named(&part.task) {
            None => true,
            Some(task) => inputs_of(task)
                .iter()
                .all(|port| self.is_fed(Some(&part.name), &port.name)),
        }
    }
}

impl MemberRules<Part> for Feeds<'_> {
    ghost checks = { λ s. fed_part_checks s.graph.earlier.tasks.now s.graph.compound.now };

    ghost Stands = { λ _ _. Unit {0} };

    fn test(&self, at: &Path, _: &[Part], member: &Part) -> Result<(), Misfit> {
        require(
            at.copy(),
            rules::PART_INPUTS_ARE_FED,
            self.part_is_fed(member),
        )
    }
}

impl MemberRules<Port> for Feeds<'_> {
    ghost checks = { λ s. fed_output_checks s.graph.compound.now };

    ghost Stands = { λ _ _. Unit {0} };

    fn test(&self, at: &Path, _: &[Port], member: &Port) -> Result<(), Misfit> {
        require(
            at.copy(),
            rules::OWN_OUTPUT_IS_FED,
            self.is_fed(None, &member.name),
        )
    }
}

/// Tests the ports and the parts of a compound.
#[tactic(auto, using(crate::proofs::Walks::passed, crate::proofs::Walks::failed))]
fn test_parts(at: &Path, graph: &Graph) -> Result<(), Misfit>
    requires depth { length at.now < 8 }
    requires types { IsCompound graph.now.compound.now }
    ensures { Tells result (part_list_checks graph.now.earlier.tasks.now at.now graph.now.compound.now) }
{
    let compound = graph.compound;
    test_each(&Inputs, &at.to_key(Key::KIn), &compound.ins)?;
    let outputs = Outputs { ins: &compound.ins };
    test_each(&outputs, &at.to_key(Key::KOut), &compound.outs)?;
    test_each(graph, &at.to_key(Key::KParts), &compound.parts)
}

/// Tests all members of a compound.
#[tactic(auto, using(crate::proofs::Walks::passed, crate::proofs::Walks::failed))]
fn test_members(at: &Path, graph: &Graph) -> Result<(), Misfit>
    requires depth { length at.now < 8 }
    requires types { IsCompound graph.now.compound.now }
    ensures { Tells result (member_checks graph.now.earlier.tasks.now at.now graph.now.compound.now) }
{
    let compound = graph.compound;
    test_parts(at, graph)?;
    test_each(graph, &at.to_key(Key::KLinks), &compound.links)?;
    test_each(graph, &at.to_key(Key::KReshapes), &compound.reshapes)
}

/// Tests the members of a compound, and then what feeds its parts and its outputs.
#[tactic(auto, using(crate::proofs::Walks::passed, crate::proofs::Walks::failed))]
fn test_graph(at: &Path, graph: &Graph) -> Result<(), Misfit>
    requires depth { length at.now < 8 }
    requires types { IsCompound graph.now.compound.now }
    ensures { Tells result (graph_checks graph.now.earlier.tasks.now at.now graph.now.compound.now) }
{
    let compound = graph.compound;
    test_members(at, graph)?;
    let feeds = Feeds { graph: *graph };
    test_each(&feeds, &at.to_key(Key::KParts), &compound.parts)?;
    test_each(&feeds, &at.to_key(Key::KOut), &compound.outs)
}

/// Tests a graph of tasks after the tasks that its parts can name.
#[tactic(auto, using(crate::proofs::NamePlaces::made))]
pub fn test_compound<'a>(
    alloc: Global,
    at: &Path,
    earlier: Earlier<'a>,
    compound: &'a Compound,
) -> Result<(), Misfit>
    requires depth { length at.now < 8 }
    requires types { IsCompound compound.now }
    ensures { Tells result (compound_checks earlier.entry.tasks.now at.now compound.now) }
{
    let indexes = Indexes {
        parts: Index::of(alloc, compound.parts.as_slice()),
        links: Index::of(alloc, compound.links.as_slice()),
        reshapes: Index::of(alloc, compound.reshapes.as_slice()),
    };
    let graph = Graph {
        earlier,
        compound,
        indexes: &indexes,
    };
    test_graph(at, &graph)
}
