ghost use Rattle.std.specs.Prelude.{◌≤◌, length};
ghost use Rattle.aol_model_types.specs.Types.{IsReadModel};

use aol_allocate::{PlaceCause, PlaceRefused, Placed, allocate};
use aol_flat::{Flat, flatten};
use aol_model::{Document, Entry, Model, document_of, shapes_agree};
use aol_shape::{Items, Point};
use serde_json::Value;
use std::alloc::{AllocError, Global};
use std::test::Fail;

/// A word and the indices of a point.
fn at_point(alloc: Global, word: &str, point: &Point) -> Result<String, AllocError> {
    let mut line = String::from_str(alloc, word)?;
    for index in point.as_slice() {
        let text = format!(in alloc; " {index}")?;
        line.push_str(text.as_str())?;
    }
    Ok(line)
}

/// A cause in words.
fn cause_text(alloc: Global, cause: &PlaceCause) -> Result<String, AllocError> {
    match cause {
        PlaceCause::NoLeaf => String::from_str(alloc, "no leaf"),
        PlaceCause::Shape => String::from_str(alloc, "shape"),
        PlaceCause::Twice(point) => at_point(alloc, "twice", point),
        PlaceCause::Unplaced(point) => at_point(alloc, "unplaced", point),
    }
}

/// The worker of each instance.
fn workers_text(alloc: Global, placed: &Placed, instances: u32) -> Result<String, AllocError>
    requires { instances ≤ length placed.now.of_instance }
{
    let mut line = format!(in alloc; "{} workers:", placed.workers())?;
    for instance in 0..instances {
        let text = format!(in alloc; " {}", placed.worker_of(instance))?;
        line.push_str(text.as_str())?;
    }
    Ok(line)
}

/// The worker of each instance, or the first entry that places nothing and its cause.
fn placed_text(
    alloc: Global,
    flat: &Flat,
    entries: &Items<Entry>,
    workers: u32,
) -> Result<String, AllocError>
    requires some { 1 ≤ workers }
    requires bound { workers ≤ 64 }
{
    match allocate(alloc, flat, entries, workers) {
        Ok(placed) => workers_text(alloc, &placed, flat.instances()),
        Err(PlaceRefused::Entry { entry, cause }) => {
            let text = cause_text(alloc, &cause)?;
            format!(in alloc; "entry {entry}: {text}")
        }
        Err(PlaceRefused::NoMemory) => String::from_str(alloc, "memory"),
    }
}

/// The tree of the document with these tasks, this main task and these entries.
fn tree_of(alloc: Global, case: &Case) -> Result<Value, Fail> {
    let text = format!(in alloc;
        "{{\"model\":{{\"tasks\":[{}],\"main\":\"{}\"}},\"input\":{{}},\"transform\":[],\"allocate\":[{}]}}",
        case.tasks, case.main, case.entries
    )?;
    Ok(Value::from_str(alloc, text.as_str())?)
}

/// The model of a document, laid out; none where it is refused.
fn flat_of(alloc: Global, model: Model) -> Option<Flat>
    requires { IsReadModel model }
{
    if shapes_agree(alloc, &model).is_err() {
        return None;
    }
    flatten(alloc, model).ok()
}

/// The worker of each instance of a case, or what refuses it.
fn line(alloc: Global, case: &Case) -> Result<String, Fail> {
    let workers = case.workers;
    if workers < 1 || workers > 64 {
        return Ok(String::from_str(alloc, "workers")?);
    }
    let tree = tree_of(alloc, case)?;
    match document_of(alloc, &tree) {
        Ok(Document { model, job }) => match flat_of(alloc, model) {
            Some(flat) => Ok(placed_text(alloc, &flat, &job.allocate, workers)?),
            None => Ok(String::from_str(alloc, "not laid out")?),
        },
        Err(_) => Ok(String::from_str(alloc, "not read")?),
    }
}

/// A document, how many workers there are, and what is expected.
#[derive(Clone, Copy)]
struct Case {
    tasks: &'static str,
    main: &'static str,
    entries: &'static str,
    workers: u32,
    expected: &'static str,
}

const FILTER: &str = r#"
    {"kind":"elementary","name":"Tap","in":[{"name":"w","shape":"{3}"}],"out":[{"name":"s","shape":"{}","expr":"w{0}+w{1}+w{2}"}]},
    {"kind":"repeated","name":"Filter","in":[{"name":"x","shape":"{8}"}],"out":[{"name":"y","shape":"{8}"}],"space":"{8}","task":"Tap","tilers":[
        {"outer":"x","inner":"w","tiler":"(origin={-1},paving={{1}},fitting={{1}})"},
        {"outer":"y","inner":"s","tiler":"(origin={0},paving={{1}},fitting={})"}],"links":[]}"#;

const GRID: &str = r#"
    {"kind":"elementary","name":"Neg","in":[{"name":"a","shape":"{}"}],"out":[{"name":"s","shape":"{}","expr":"0-a{}"}]},
    {"kind":"repeated","name":"Grid","in":[{"name":"x","shape":"{2,2}"}],"out":[{"name":"y","shape":"{2,2}"}],"space":"{2,2}","task":"Neg","tilers":[
        {"outer":"x","inner":"a","tiler":"(origin={0,0},paving={{1,0},{0,1}},fitting={})"},
        {"outer":"y","inner":"s","tiler":"(origin={0,0},paving={{1,0},{0,1}},fitting={})"}],"links":[]}"#;

const FLIP: &str = r#"
    {"kind":"compound","name":"Flip","in":[{"name":"x","shape":"{2,3}"}],"out":[{"name":"y","shape":"{3,2}"}],"parts":[],"links":[],"reshapes":[
        {"from":"x","to":"y","space":"{2}","pattern":"{3}","source":"(origin={0,0},paving={{1,0}},fitting={{0,1}})","target":"(origin={0,0},paving={{0,1}},fitting={{1,0}})"}]}"#;

/// Seven and then six repetitions of one point each: thirteen entries.
const DEEP: &str = r#"
    {"kind":"elementary","name":"Neg","in":[{"name":"a","shape":"{}"}],"out":[{"name":"s","shape":"{}","expr":"0-a{}"}]},
    {"kind":"repeated","name":"Inner","in":[{"name":"x","shape":"{1}"}],"out":[{"name":"y","shape":"{1}"}],"space":"{1,1,1,1,1,1,1}","task":"Neg","tilers":[
        {"outer":"x","inner":"a","tiler":"(origin={0},paving={{0},{0},{0},{0},{0},{0},{0}},fitting={})"},
        {"outer":"y","inner":"s","tiler":"(origin={0},paving={{0},{0},{0},{0},{0},{0},{0}},fitting={})"}],"links":[]},
    {"kind":"repeated","name":"Deep","in":[{"name":"x","shape":"{1}"}],"out":[{"name":"y","shape":"{1}"}],"space":"{1,1,1,1,1,1}","task":"Inner","tilers":[
        {"outer":"x","inner":"x","tiler":"(origin={0},paving={{0},{0},{0},{0},{0},{0}},fitting={{1}})"},
        {"outer":"y","inner":"y","tiler":"(origin={0},paving={{0},{0},{0},{0},{0},{0}},fitting={{1}})"}],"links":[]}"#;

/// Exchanges both indices.
const EXCHANGED: &str =
    r#"{"leaf":"/*","processors":"{2,2}","space":"{2,2}","pattern":"{}","from":"(origin={0,0},paving={{1,0},{0,1}},fitting={})","to":"(origin={0,0},paving={{0,1},{1,0}},fitting={})"}"#;

/// Two entries of one leaf.
const EXCHANGED_TWICE: &str = r#"
    {"leaf":"/*","processors":"{2,2}","space":"{2,2}","pattern":"{}","from":"(origin={0,0},paving={{1,0},{0,1}},fitting={})","to":"(origin={0,0},paving={{0,1},{1,0}},fitting={})"},
    {"leaf":"/*","processors":"{2,2}","space":"{2,2}","pattern":"{}","from":"(origin={0,0},paving={{1,0},{0,1}},fitting={})","to":"(origin={0,0},paving={{0,1},{1,0}},fitting={})"}"#;

/// Places the first column alone, twice.
const COLUMN_TWICE: &str =
    r#"{"leaf":"/*","processors":"{2,2}","space":"{2,2}","pattern":"{}","from":"(origin={0,0},paving={{1,0},{0,0}},fitting={})","to":"(origin={0,0},paving={{0,1},{1,0}},fitting={})"}"#;

/// Places the first column alone, once.
const COLUMN: &str =
    r#"{"leaf":"/*","processors":"{2,2}","space":"{2,1}","pattern":"{}","from":"(origin={0,0},paving={{1,0},{0,0}},fitting={})","to":"(origin={0,0},paving={{0,1},{1,0}},fitting={})"}"#;

/// Names no leaf.
const OF_A: &str =
    r#"{"leaf":"/a","processors":"{2,2}","space":"{2,2}","pattern":"{}","from":"(origin={0,0},paving={{1,0},{0,1}},fitting={})","to":"(origin={0,0},paving={{0,1},{1,0}},fitting={})"}"#;

/// Names a copy.
const OF_A_COPY: &str =
    r#"{"leaf":"/#0","processors":"{2,2}","space":"{2,2}","pattern":"{}","from":"(origin={0,0},paving={{1,0},{0,1}},fitting={})","to":"(origin={0,0},paving={{0,1},{1,0}},fitting={})"}"#;

/// Names a leaf in two repetitions.
const OF_DEEP: &str =
    r#"{"leaf":"/*/*","processors":"{1}","space":"{1}","pattern":"{}","from":"(origin={0},paving={{1}},fitting={})","to":"(origin={0},paving={{1}},fitting={})"}"#;

/// Whether a case is as expected.
fn holds(alloc: Global, case: &Case) -> Result<bool, Fail> {
    let found = line(alloc, case)?;
    Ok(found.as_str() == case.expected)
}

const fn filter(workers: u32, expected: &'static str) -> Case {
    Case {
        tasks: FILTER,
        main: "Filter",
        entries: "",
        workers,
        expected,
    }
}

const fn flip(entries: &'static str, workers: u32, expected: &'static str) -> Case {
    Case {
        tasks: FLIP,
        main: "Flip",
        entries,
        workers,
        expected,
    }
}

const fn grid(entries: &'static str, workers: u32, expected: &'static str) -> Case {
    Case {
        tasks: GRID,
        main: "Grid",
        entries,
        workers,
        expected,
    }
}

#[test]
fn instances_are_placed(rt: HostRuntime) -> Result<(), Fail> {
    let cases = [
        // Without entries instances are shared out evenly.
        filter(3, "3 workers: 0 0 0 1 1 1 2 2"),
        filter(16, "16 workers: 0 2 4 6 8 10 12 14"),
        flip("", 2, "2 workers: 0 0 0 1 1 1"),
        // By an entry.
        grid(EXCHANGED, 3, "3 workers: 0 2 1 0"),
        grid(EXCHANGED, 1, "1 workers: 0 0 0 0"),
        grid(EXCHANGED, 64, "64 workers: 0 2 1 3"),
        // Causes.
        grid(COLUMN_TWICE, 3, "entry 0: twice 0 0"),
        grid(COLUMN, 3, "entry 0: unplaced 0 1"),
        grid(OF_A, 3, "entry 0: no leaf"),
        flip(OF_A_COPY, 3, "entry 0: no leaf"),
        grid(EXCHANGED_TWICE, 3, "entry 1: no leaf"),
        Case {
            tasks: DEEP,
            main: "Deep",
            entries: OF_DEEP,
            workers: 3,
            expected: "entry 0: shape",
        },
    ];
    for case in &cases {
        assert!(rt; holds(rt.alloc(), case)?);
    }
    Ok(())
}
