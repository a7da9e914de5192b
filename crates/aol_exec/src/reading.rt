//! The walk of the tree.

ghost use Rattle.std.specs.Prelude.{◌≡◌, ◌∷◌, [], ◌+◌, ◌<◌, ◌^◌, Some, length, map, IfOk, IfErr};
ghost use Rattle.serde_json.specs.Find.{get};
ghost use Rattle.serde_json.specs.View.{view};
ghost use Rattle.aol_model_types.specs.Places.{key_text, to_key, to_index, whole};
ghost use Rattle.aol_model_types.specs.Reading.{elements, found, has_key, has_keys, integer_at, member_at, member_count, object_at};
ghost use Rattle.aol_model_types.specs.declared.place.Key.TheVariants.{KMemory, KOrder, KProgram};
ghost use Rattle.aol_csyn.specs.Stored.{program_of};
ghost use Rattle.aol_exec.specs.Job.{Asks, HasProgram, job_keys, memory_in, order_at, order_named, rest_in, text_in};
ghost use Rattle.aol_exec.specs.Results.{Gives, IsNoJob, IfCause, job_of, lent, lent_view, text_refusal};

use crate::job::{ExecJob, JobRefused};
use aol_cexec::{Order, ReadCRefused, read_c};
use aol_csyn::CProgram;
use aol_model_types::{Key, Path};
use aol_shape::{Items, is_same};
use serde_json::Value;
use std::alloc::Global;

/// The longest text of a program that is read; its lines are counted in 32 bits.
const MAX_TEXT: usize = 4_294_967_294;

/// The most numbers that are read; their places are counted in 32 bits.
const MAX_NUMBERS: usize = 4_294_967_295;

/// How many members the value has.
#[tactic(auto, using(crate::proofs::Walks::counted))]
fn members_of(tree: &Value) -> usize
    ensures { result ≡ member_count (view tree.now) }
{
    match tree.as_object() {
        Some(map) => map.len(),
        None => 0,
    }
}

/// The value has this key.
fn has_key(tree: &Value, key: Key) -> bool
    ensures { result ≡ has_key (view tree.now) key }
{
    tree.get(key.text()).is_some()
}

/// The tree is an object with exactly the three keys.
fn has_keys(tree: &Value) -> bool
    ensures { result ≡ has_keys job_keys [] (view tree.now) }
{
    has_key(tree, Key::KProgram)
        && has_key(tree, Key::KMemory)
        && has_key(tree, Key::KOrder)
        && members_of(tree) == 3
}

/// The refusal of the form of a member.
fn wrong(alloc: Global, key: Key) -> JobRefused
    ensures { result ≡ JobRefused.Grammar (whole (to_key [] key)) }
{
    JobRefused::Grammar(Path::top(alloc).to_key(key).place())
}

/// The member with this key.
fn member_of<'a>(alloc: Global, tree: &'a Value, key: Key) -> Result<&'a Value, JobRefused>
    ensures { Gives (lent_view result) (found [] (get (key_text key) (view tree.now))) }
{
    match tree.get(key.text()) {
        Some(value) => Ok(value),
        None => Err(JobRefused::Grammar(Path::top(alloc).place())),
    }
}

/// The text that is to be a program's.
fn text_of<'a>(alloc: Global, tree: &'a Value) -> Result<&'a str, JobRefused>
    ensures { Gives (lent result) (text_in (view tree.now)) }
{
    if !has_keys(tree) {
        return Err(JobRefused::Grammar(Path::top(alloc).place()));
    }
    match member_of(alloc, tree, Key::KProgram)?.as_str() {
        Some(text) => Ok(text),
        None => Err(wrong(alloc, Key::KProgram)),
    }
}

/// The refusal of a program's text.
fn text_refused(alloc: Global, refused: ReadCRefused) -> JobRefused
    ensures { result ≡ text_refusal refused }
{
    match refused {
        ReadCRefused::At { line } => {
            JobRefused::Grammar(Path::top(alloc).to_key(Key::KProgram).byte(line))
        }
        ReadCRefused::NoMemory => JobRefused::NoMemory,
    }
}

/// The program whose text the tree has.
fn program_in(alloc: Global, tree: &Value) -> Result<CProgram, JobRefused>
    ensures program { IfOk result (λ p. HasProgram (view tree.now) (program_of p)) }
    ensures refused { IfErr result (λ e. IfCause e (IsNoJob (view tree.now))) }
{
    let text = text_of(alloc, tree)?;
    if text.len() > MAX_TEXT {
        return Err(JobRefused::NoMemory);
    }
    match read_c(alloc, text) {
        Ok(program) => Ok(program),
        Err(refused) => Err(text_refused(alloc, refused)),
    }
}

/// The number with this place in `memory`.
fn number_of(alloc: Global, tree: &Value, place: u32) -> Result<i64, JobRefused>
    ensures { Gives result (integer_at (to_index (to_key [] KMemory) place) (view tree.now)) }
{
    match tree.as_i64() {
        Some(number) => Ok(number),
        None => {
            let path = Path::top(alloc).to_key(Key::KMemory).to_index(place);
            Err(JobRefused::Grammar(path.place()))
        }
    }
}

/// The numbers of `memory`.
fn numbers_of(alloc: Global, trees: &[Value]) -> Result<Items<i64>, JobRefused>
    requires { length trees.now < 2 ^ 32 }
    ensures { Gives result (elements integer_at (to_key [] KMemory) 0 (map view trees.now)) }
{
    let mut numbers = Items::new(alloc);
    for (i, tree) in trees.iter().enumerate() {
        let number = number_of(alloc, tree, i as u32)?;
        numbers.push(number)?;
    }
    Ok(numbers)
}

/// The member `memory`.
fn memory_of(alloc: Global, tree: &Value) -> Result<Items<i64>, JobRefused>
    ensures { Gives result (memory_in (view tree.now)) }
{
    let Some(list) = member_of(alloc, tree, Key::KMemory)?.as_array() else {
        return Err(wrong(alloc, Key::KMemory));
    };
    if list.len() > MAX_NUMBERS {
        return Err(JobRefused::NoMemory);
    }
    numbers_of(alloc, list.as_slice())
}

/// The order with this name.
fn order_named(name: &str) -> Option<Order>
    ensures { result ≡ order_named name.now }
{
    if is_same(name, "up") {
        Some(Order::Up)
    } else if is_same(name, "down") {
        Some(Order::Down)
    } else {
        None
    }
}

/// The member `order`.
fn order_of(alloc: Global, tree: &Value) -> Result<Order, JobRefused>
    ensures { Gives result (member_at [] (view tree.now) KOrder order_at) }
{
    let Some(name) = member_of(alloc, tree, Key::KOrder)?.as_str() else {
        return Err(wrong(alloc, Key::KOrder));
    };
    match order_named(name) {
        Some(order) => Ok(order),
        None => Err(wrong(alloc, Key::KOrder)),
    }
}

/// The members after the program.
fn rest_of(alloc: Global, tree: &Value) -> Result<(Items<i64>, Order), JobRefused>
    ensures { Gives result (rest_in (view tree.now)) }
{
    let memory = memory_of(alloc, tree)?;
    let order = order_of(alloc, tree)?;
    Ok((memory, order))
}

/// The job that a tree asks for.
///
/// The tree is the object with exactly the keys `program` (the text of a program), `memory` (whole
/// numbers) and `order` (`up` or `down`), walked in this order. It refuses with `Grammar` alone,
/// exactly where the tree asks for no job, at the first place of the walk that has the wrong form,
/// and for want of memory.
pub fn exec_job(alloc: Global, tree: &Value) -> Result<ExecJob, JobRefused>
    ensures job { IfOk result (λ j. Asks (view tree.now) (job_of j)) }
    ensures refused { IfErr result (λ e. IfCause e (IsNoJob (view tree.now))) }
{
    let program = program_in(alloc, tree)?;
    let (memory, order) = rest_of(alloc, tree)?;
    Ok(ExecJob {
        program,
        memory,
        order,
    })
}
