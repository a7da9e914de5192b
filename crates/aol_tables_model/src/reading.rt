use aol_model::{DocRefused, Document, Place, document_of, limit_text};
use serde_json::Value;
use std::alloc::{AllocError, Global};
use std::test::Fail;

/// A document whose one task is this.
fn with_task(alloc: Global, task: &str) -> Result<String, AllocError> {
    format!(in alloc;
        "{{\"model\":{{\"tasks\":[{task}],\"main\":\"A\"}},\"input\":{{\"a\":[1,-2]}},\"transform\":[],\"allocate\":[]}}"
    )
}

/// What a status line says of a place, after a word.
fn placed(alloc: Global, word: &str, place: &Place) -> Result<String, Fail> {
    let mut line = String::from_str(alloc, word)?;
    line.push_str(" ")?;
    place.write_to(&mut line)?;
    Ok(line)
}

/// `read`, or why the document is refused and where.
pub fn verdict(alloc: Global, text: &str) -> Result<String, Fail> {
    let tree = Value::from_str(alloc, text)?;
    match document_of(alloc, &tree) {
        Ok(_) => Ok(String::from_str(alloc, "read")?),
        Err(DocRefused::Grammar(place)) => placed(alloc, "grammar", &place),
        Err(DocRefused::Limit(place, name)) => {
            let mut line = placed(alloc, "limit", &place)?;
            line.push_str(" ")?;
            line.push_str(limit_text(name))?;
            Ok(line)
        }
        Err(DocRefused::NoMemory) => Ok(String::from_str(alloc, "memory")?),
    }
}

/// Whether the document whose one task is this has this verdict.
fn has_verdict(alloc: Global, task: &str, expected: &str) -> Result<bool, Fail> {
    let text = with_task(alloc, task)?;
    let found = verdict(alloc, text.as_str())?;
    Ok(found.as_str() == expected)
}

const NOTED: &str =
    "{\"kind\":\"elementary\",\"name\":\"A\",\"in\":[],\"out\":[{\"name\":\"s\",\"shape\":\"{2,\",\"expr\":\"0\"}],\"note\":1}";

const CUT: &str =
    "{\"kind\":\"elementary\",\"name\":\"A\",\"in\":[],\"out\":[{\"name\":\"s\",\"shape\":\"{2,\",\"expr\":\"0\"}]}";

const TYPED: &str =
    "{\"kind\":\"elementary\",\"name\":\"A\",\"in\":[{\"name\":\"a\",\"shape\":\"{}\",\"type\":\"int8\"}],\"out\":[{\"name\":\"s\",\"shape\":\"{}\",\"expr\":\"0\"}]}";

#[test]
fn first_faults_have_their_places(rt: HostRuntime) -> Result<(), Fail> {
    let alloc = rt.alloc();
    let rows = [
        (NOTED, "grammar $.model.tasks[0]"),
        (CUT, "grammar $.model.tasks[0].out[0].shape@3"),
        (TYPED, "grammar $.model.tasks[0].in[0].type"),
    ];
    for (task, expected) in rows {
        assert!(rt; has_verdict(alloc, task, expected)?);
    }
    Ok(())
}

/// A task with this many inputs, and one output.
fn with_inputs(alloc: Global, count: u32) -> Result<String, AllocError> {
    let mut text = String::from_str(
        alloc,
        "{\"kind\":\"elementary\",\"name\":\"A\",\"out\":[{\"name\":\"s\",\"shape\":\"{}\",\"expr\":\"0\"}],\"in\":[",
    )?;
    for k in 0..count {
        if k > 0 {
            text.push_str(",")?;
        }
        text.push_str("{\"name\":\"i\",\"shape\":\"{}\"}")?;
    }
    text.push_str("]}")?;
    Ok(text)
}

#[test]
fn a_task_has_sixty_four_ports(rt: HostRuntime) -> Result<(), Fail> {
    let alloc = rt.alloc();
    let most = with_inputs(alloc, 63)?;
    assert!(rt; has_verdict(alloc, most.as_str(), "read")?);
    let many = with_inputs(alloc, 64)?;
    assert!(rt; has_verdict(alloc, many.as_str(), "limit $.model.tasks[0].out ports")?);
    Ok(())
}

/// A document whose one step of the transformation is this.
fn with_step(alloc: Global, step: &str) -> Result<String, AllocError> {
    let wire = WIRE;
    format!(in alloc;
        "{{\"model\":{{\"tasks\":[{wire}],\"main\":\"A\"}},\"input\":{{}},\"transform\":[{step}],\"allocate\":[]}}"
    )
}

#[test]
fn steps_are_of_four_kinds(rt: HostRuntime) -> Result<(), Fail> {
    let alloc = rt.alloc();
    let rows = [
        ("tile", "read"),
        ("pave", "read"),
        ("skew", "read"),
        ("fuse", "grammar $.transform[0]"),
        ("turn", "grammar $.transform[0].kind"),
    ];
    for (kind, expected) in rows {
        let step = format!(in alloc;
            "{{\"kind\":\"{kind}\",\"task\":\"A\",\"outer\":\"{{2}}\",\"block\":\"{{1}}\"}}"
        )?;
        let text = with_step(alloc, step.as_str())?;
        let found = verdict(alloc, text.as_str())?;
        assert_eq!(rt; found.as_str(), expected);
    }
    Ok(())
}

#[test]
fn members_of_the_document_have_their_places(rt: HostRuntime) -> Result<(), Fail> {
    let alloc = rt.alloc();
    let rows = [
        ("{}", "grammar $"),
        (
            "{\"model\":1,\"input\":2,\"transform\":[],\"allocate\":[],\"version\":3}",
            "grammar $.version",
        ),
        (
            "{\"model\":1,\"input\":2,\"transform\":[],\"allocate\":[],\"version\":2}",
            "grammar $.model",
        ),
    ];
    for (text, expected) in rows {
        let found = verdict(alloc, text)?;
        assert_eq!(rt; found.as_str(), expected);
    }
    Ok(())
}

const WIRE: &str =
    "{\"kind\":\"compound\",\"name\":\"A\",\"in\":[{\"name\":\"x\",\"shape\":\"{2}\"}],\"out\":[{\"name\":\"y\",\"shape\":\"{2}\"}],\"parts\":[],\"links\":[{\"from\":\"x\",\"to\":\"y\"}],\"reshapes\":[]}";

#[test]
fn a_document_is_read_and_its_model_copied(rt: HostRuntime) -> Result<(), Fail> {
    let alloc = rt.alloc();
    let text = with_task(alloc, WIRE)?;
    let tree = Value::from_str(alloc, text.as_str())?;
    let Ok(Document { model, job }) = document_of(alloc, &tree) else {
        assert!(rt; false);
        return Ok(());
    };
    let copy = model.copy(alloc)?;
    assert_eq!(rt; copy.tasks.len(), 1);
    assert_eq!(rt; copy.main.as_str(), "A");
    assert_eq!(rt; job.input.len(), 1);
    Ok(())
}
