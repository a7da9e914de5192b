//! A node on the way of a walk.

ghost use Rattle.std.specs.Prelude.{◌≡◌, ◌+◌, [], ◌++◌, ◌<◌, codes, decimal, IfOk, string_bytes};
ghost use Rattle.aol_flat.specs.Node.{root_or};

use aol_shape::{Items, Name, NoMemory};
use itoa::Buffer;
use std::alloc::Global;

/// What a walk keeps of the node where it is, for the leaves and nodes there and below.
///
/// `depth` is 1 at the root. `space` has the entries of the spaces of all repetitions around the node, the outermost
/// first. `path` has a `/` before each step, and is empty at the root.
#[derive(Drop)]
pub struct Spot {
    pub depth: u32,
    pub space: Items<u32>,
    pub path: String,
}

/// The root.
pub fn root(alloc: Global) -> Spot
    ensures depth { result.depth ≡ 1 }
    ensures space { result.space ≡ [] }
    ensures path { string_bytes result.path ≡ [] }
{
    Spot {
        depth: 1,
        space: Items::new(alloc),
        path: String::new(alloc),
    }
}

/// The entries of the first list and then those of the others.
pub fn entries_of(
    alloc: Global,
    first: &[u32],
    second: &[u32],
    third: &[u32],
) -> Result<Items<u32>, NoMemory>
    ensures { IfOk result (λ all. all ≡ first.now ++ second.now ++ third.now) }
{
    let mut entries = Vec::from_slice(alloc, first)?;
    entries.extend_from_slice(second)?;
    entries.extend_from_slice(third)?;
    Ok(Items::from_vec(entries))
}

/// Two texts with another in between.
fn text_of(alloc: Global, first: &str, between: &str, last: &str) -> Result<String, NoMemory>
    ensures { IfOk result (λ text. string_bytes text ≡ first.now ++ between.now ++ last.now) }
{
    let mut text = String::from_str(alloc, first)?;
    text.push_str(between)?;
    text.push_str(last)?;
    Ok(text)
}

impl Spot {
    /// One step down: the step's text, and the entries of the space that it enters.
    pub fn below(&self, alloc: Global, step: &str, space: &[u32]) -> Result<Spot, NoMemory>
        requires { self.now.depth < 33 }
        ensures depth { IfOk result (λ s. s.depth ≡ self.now.depth + 1) }
        ensures space { IfOk result (λ s. s.space ≡ self.now.space ++ space.now) }
        ensures path { IfOk result (λ s. string_bytes s.path ≡ string_bytes self.now.path ++ codes "/" ++ step.now) }
    {
        let path = text_of(alloc, self.path.as_str(), "/", step)?;
        let space = entries_of(alloc, self.space.as_slice(), space, &[])?;
        Ok(Spot {
            depth: self.depth + 1,
            space,
            path,
        })
    }

    /// The path of the node; that of the root is `/`.
    pub fn node_path(&self, alloc: Global) -> Result<Name, NoMemory>
        ensures { IfOk result (λ name. name ≡ root_or (string_bytes self.now.path)) }
    {
        let path = self.path.as_str();
        if path.is_empty() {
            return Name::from_str(alloc, "/");
        }
        Name::from_str(alloc, path)
    }

    /// The path of the reshape with this number at the node.
    pub fn reshape_path(&self, alloc: Global, number: usize) -> Result<Name, NoMemory>
        ensures { IfOk result (λ name. name ≡ string_bytes self.now.path ++ codes "/#" ++ decimal number) }
    {
        let mut buffer = Buffer::new();
        let text = text_of(alloc, self.path.as_str(), "/#", buffer.format(number))?;
        Ok(Name::from_string(text))
    }
}
