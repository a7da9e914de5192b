ghost use Rattle.std.specs.Prelude.{◌≡◌, ◌+◌, ◌≤◌, ◌<◌, length, nat_lt, IfOk, true};
ghost use Rattle.std.specs.List.{list_all};
ghost use Rattle.serde_json.specs.View.{view};
ghost use Rattle.aol_shape.specs.Numbers.{fits_64};
ghost use Rattle.aol_model_types.specs.Answers.{Gives};
ghost use Rattle.aol_model_types.specs.Reading.{integer_at, tile_at, pave_at, skew_at, pick_at, step_at, leaf_at, entry_at};
ghost use Rattle.aol_model_types.specs.Types.{IsPick, IsStep, IsEntry};
ghost use Rattle.aol_document_reading.specs.Parts.{fuse_by_parts, entry_by_parts};
ghost use Rattle.aol_document_reading.specs.Trails.{steps_of};

use crate::reading::forms::{integer_of, member_of, need, object_of, text_of};
use crate::reading::from_tree::{FromTree, Reader};
use crate::reading::texts::{kind_of, same_text};
use crate::reading::trail::Trail;
use aol_model_types::limits::MAX_LEAF;
use aol_model_types::{DocRefused, Entry, FuseArgs, Key, PaveArgs, Pick, Step};
use aol_shape::Name;
use serde_json::Value;

impl FromTree for i64 {
    ghost use Rattle.std.specs.Prelude.{◌≡◌, true};
    ghost use Rattle.aol_shape.specs.Numbers.{fits_64};

    ghost reading = { λ later. integer_at };

    ghost guarantees = { λ z. fits_64 z ≡ true };

    ghost depth = { 0 };

    fn from_tree(_reader: Reader, at: &Trail<'_>, tree: &Value) -> Result<i64, DocRefused> {
        integer_of(at, tree)
    }
}

/// A step of kind tile.
fn tile_of(reader: Reader, at: &Trail<'_>, tree: &Value) -> Result<Step, DocRefused>
    requires { length (steps_of at.now) < 12 }
    ensures read { Gives result (tile_at (steps_of at.now) (view tree.now)) }
    ensures types { IfOk result IsStep }
{
    object_of(
        at,
        tree,
        &[Key::KKind, Key::KTask, Key::KOuter, Key::KBlock],
        &[],
    )?;
    let task = reader.member(at, tree, Key::KTask)?;
    let outer = reader.member(at, tree, Key::KOuter)?;
    let block = reader.member(at, tree, Key::KBlock)?;
    Ok(Step::Tile { task, outer, block })
}

/// A step of kind pave.
fn pave_of(reader: Reader, at: &Trail<'_>, tree: &Value) -> Result<Step, DocRefused>
    requires { length (steps_of at.now) < 12 }
    ensures read { Gives result (pave_at (steps_of at.now) (view tree.now)) }
    ensures types { IfOk result IsStep }
{
    object_of(
        at,
        tree,
        &[Key::KKind, Key::KTask, Key::KOuter, Key::KBlock],
        &[],
    )?;
    let task = reader.member(at, tree, Key::KTask)?;
    let outer = reader.member(at, tree, Key::KOuter)?;
    let block = reader.member(at, tree, Key::KBlock)?;
    let args = PaveArgs { outer, block };
    Ok(Step::Pave { task, args })
}

/// A step of kind skew.
fn skew_of(reader: Reader, at: &Trail<'_>, tree: &Value) -> Result<Step, DocRefused>
    requires { length (steps_of at.now) < 12 }
    ensures read { Gives result (skew_at (steps_of at.now) (view tree.now)) }
    ensures types { IfOk result IsStep }
{
    object_of(
        at,
        tree,
        &[Key::KKind, Key::KTask, Key::KOuter, Key::KBlock],
        &[],
    )?;
    let task = reader.member(at, tree, Key::KTask)?;
    let outer = reader.member(at, tree, Key::KOuter)?;
    let block = reader.member(at, tree, Key::KBlock)?;
    Ok(Step::Skew { task, outer, block })
}

impl FromTree for Pick {
    ghost reading = { λ later. pick_at };

    ghost guarantees = { IsPick };

    ghost depth = { 1 };

    fn from_tree(reader: Reader, at: &Trail<'_>, tree: &Value) -> Result<Pick, DocRefused> {
        object_of(at, tree, &[Key::KTo, Key::KFrom, Key::KTiler], &[])?;
        Ok(Pick {
            to: reader.member(at, tree, Key::KTo)?,
            from: reader.member(at, tree, Key::KFrom)?,
            tiler: reader.member(at, tree, Key::KTiler)?,
        })
    }
}

/// A step of kind fuse.
fn fuse_of(reader: Reader, at: &Trail<'_>, tree: &Value) -> Result<Step, DocRefused>
    requires { length (steps_of at.now) + 3 ≤ 12 }
    ensures read { Gives result (fuse_by_parts (steps_of at.now) (view tree.now)) }
    ensures types { IfOk result IsStep }
{
    let keys = [
        Key::KKind,
        Key::KTask,
        Key::KFirst,
        Key::KSecond,
        Key::KBlock,
        Key::KTiler,
        Key::KPicks,
    ];
    object_of(at, tree, &keys, &[])?;
    let names = reader.three(at, tree, (Key::KTask, Key::KFirst, Key::KSecond))?;
    let parts = reader.three(at, tree, (Key::KBlock, Key::KTiler, Key::KPicks))?;
    let (task, first, second) = names;
    let (block, tiler, picks) = parts;
    let args = FuseArgs {
        first,
        second,
        block,
        tiler,
        picks,
    };
    Ok(Step::Fuse { task, args })
}

impl FromTree for Step {
    ghost reading = { λ later. step_at };

    ghost guarantees = { IsStep };

    ghost depth = { 3 };

    fn from_tree(reader: Reader, at: &Trail<'_>, tree: &Value) -> Result<Step, DocRefused> {
        let kind = kind_of(at, tree, &["tile", "pave", "skew", "fuse"])?;
        if same_text(kind, "tile") {
            tile_of(reader, at, tree)
        } else if same_text(kind, "pave") {
            pave_of(reader, at, tree)
        } else if same_text(kind, "skew") {
            skew_of(reader, at, tree)
        } else {
            fuse_of(reader, at, tree)
        }
    }
}

fn are_ascii(bytes: &[u8]) -> bool
    ensures { result ≡ list_all (λ b. nat_lt b 128) bytes.now }
{
    bytes.iter().all(|byte| *byte < 128)
}

/// The path of a leaf: 1 to 4,096 ASCII characters.
fn leaf_of(reader: Reader, at: &Trail<'_>, tree: &Value) -> Result<Name, DocRefused>
    requires { length (steps_of at.now) ≤ 12 }
    ensures { Gives result (leaf_at (steps_of at.now) (view tree.now)) }
{
    let text = text_of(at, tree)?;
    let has_length = text.len() >= 1 && text.len() <= MAX_LEAF;
    need(at, has_length && are_ascii(text.as_bytes()))?;
    Ok(Name::from_str(reader.alloc, text)?)
}

/// An entry of the placement.
fn entry_of(reader: Reader, at: &Trail<'_>, tree: &Value) -> Result<Entry, DocRefused>
    requires { length (steps_of at.now) < 12 }
    ensures read { Gives result (entry_by_parts (steps_of at.now) (view tree.now)) }
    ensures types { IfOk result IsEntry }
{
    let keys = [
        Key::KLeaf,
        Key::KProcessors,
        Key::KSpace,
        Key::KPattern,
        Key::KFrom,
        Key::KTo,
    ];
    object_of(at, tree, &keys, &[])?;
    let leaf = member_of(at, tree, Key::KLeaf)?;
    let leaf = leaf_of(reader, &Trail::Key(at, Key::KLeaf), leaf)?;
    let shapes = reader.three(at, tree, (Key::KProcessors, Key::KSpace, Key::KPattern))?;
    let tilers = reader.two(at, tree, Key::KFrom, Key::KTo)?;
    let (processors, space, pattern) = shapes;
    let (from, to) = tilers;
    Ok(Entry {
        leaf,
        processors,
        space,
        pattern,
        from,
        to,
    })
}

impl FromTree for Entry {
    ghost reading = { λ later. entry_at };

    ghost guarantees = { IsEntry };

    ghost depth = { 1 };

    fn from_tree(reader: Reader, at: &Trail<'_>, tree: &Value) -> Result<Entry, DocRefused> {
        entry_of(reader, at, tree)
    }
}
