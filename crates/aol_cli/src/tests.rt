use crate::samples::{
    ADD, CHAIN, FILTER, FLIP, GRID, MATRIX, NEED, ONE, ONES, PASS, PROGRAM, ROUND, SPREAD, SQUARE,
    STEPPED, SUMS, TWO, WIDE,
};
use aol_expr::Val;
use aol_io::{MemSink, MemSource};
use aol_level::{Gate, Kept, NoGate};
use aol_program::{Ran, aol};
use aol_shape::{Items, NoMemory};
use std::alloc::Global;
use std::marker::Sync;
use std::str::from_utf8;
use std::sync::atomic::{AtomicU64, Ordering};
use std::test::Fail;
use std::thread::Threads;

/// The words between blanks.
fn words_of(alloc: Global, words: &str) -> Result<Vec<String>, Fail> {
    let mut given = Vec::new(alloc);
    for word in words.split_whitespace() {
        given.push(String::from_str(alloc, word)?)?;
    }
    Ok(given)
}

/// A source of these bytes, which fails at one call.
fn source_of(alloc: Global, bytes: &[u8], failing: u32) -> Result<MemSource, Fail> {
    let bytes = Items::from_slice(alloc, bytes)?;
    let failing = Items::from_slice(alloc, &[failing])?;
    Ok(MemSource::new(bytes, 4096, failing).ok_or("no source")?)
}

/// A sink that takes 5 bytes at a time, and fails at one call.
fn sink_of(alloc: Global, failing: u32) -> Result<MemSink, Fail> {
    let room = Items::from_vec(vec![in alloc; 0u8; 8192]?);
    let failing = Items::from_slice(alloc, &[failing])?;
    Ok(MemSink::new(room, 5, failing).ok_or("no sink")?)
}

/// The status of a call with these words, which have blanks between them, and its sink.
fn called<R: Threads + Sync>(
    rt: &R,
    alloc: Global,
    words: &str,
    bytes: &[u8],
    failing_read: u32,
    failing_write: u32,
) -> Result<(u8, MemSink), Fail> {
    let mut sink = sink_of(alloc, failing_write)?;
    let mut source = source_of(alloc, bytes, failing_read)?;
    let given = words_of(alloc, words)?;
    let status = aol(rt, alloc, given.as_slice(), &mut source, &mut sink, &NoGate);
    Ok((status.code, sink))
}

/// The document with this part of it changed to another.
fn changed(alloc: Global, document: &str, old: &str, new: &str) -> Result<String, Fail> {
    Ok(document.replacen(alloc, old, new, 1)?)
}

/// A document of one task with so many scalar inputs, and one output.
fn with_inputs(alloc: Global, count: u32) -> Result<String, Fail> {
    let mut ports = String::new(alloc);
    for k in 0..count {
        let comma = if k == 0 { "" } else { "," };
        let port = format!(in alloc; "{comma}{{\"name\":\"a{k}\",\"shape\":\"{{}}\"}}")?;
        ports.push_str(port.as_str())?;
    }
    let document = changed(alloc, ONES, r#""in":["#, r#""in":[PORTS"#)?;
    changed(alloc, document.as_str(), "PORTS", ports.as_str())
}

#[test]
fn documents_are_printed(rt: HostRuntime) -> Result<(), Fail> {
    let alloc = rt.alloc();
    // the document, a part of it, and what stands in its place
    let cases = [
        (ADD, "", ""),
        (SQUARE, "", ""),
        (ONES, "", ""),
        (ADD, r#","b":[10,20,30,40]"#, ""),
        (ADD, "[10,20,30,40]", "[1,2,3]"),
        (ADD, "40]", r#"40],"c":[-7]"#),
        (STEPPED, "", ""),
        (ADD, "+b{$0,$1}", "-(a{1,0}-b{$0,$1})"),
    ];
    for (document, old, new) in cases {
        let text = changed(alloc, document, old, new)?;
        let (code, sink) = called(&rt, alloc, "print", text.as_bytes(), 0, 0)?;
        assert_eq!(rt;
            from_utf8(sink.bytes())?.strip_suffix("\n"),
            Some(text.as_str())
        );
        assert_eq!(rt; code, 0);
    }
    Ok(())
}

/// The status and the line that a call answers for the document with this part of it changed to another.
pub fn answer_of<R: Threads + Sync>(
    rt: &R,
    alloc: Global,
    document: &str,
    old: &str,
    new: &str,
    words: &str,
) -> Result<(u8, String), Fail> {
    let text = changed(alloc, document, old, new)?;
    let (code, sink) = called(rt, alloc, words, text.as_bytes(), 0, 0)?;
    let line = from_utf8(sink.bytes())?
        .strip_suffix("\n")
        .ok_or("no line")?;
    Ok((code, String::from_str(alloc, line)?))
}

#[test]
fn canonical_texts_and_runs(rt: HostRuntime) -> Result<(), Fail> {
    // the document, a part of it, and what stands in its place; the words; the status and the line
    let cases = [
        (ADD, r#","version":2"#, "", "print", 0, ADD),
        (
            ADD,
            r#""name":"Add","#,
            r#""name":"\u0041dd","#,
            "print",
            0,
            ADD,
        ),
        (ADD, r#""{2,2}""#, r#""{ 02,2 }""#, "print", 0, ADD),
        (ADD, "a{$0,$1}+", "(a{ $0,$1 }) + ", "print", 0, ADD),
        (
            SQUARE,
            r#""s","shape":"{}","type":"int16""#,
            r#""s","shape":"{}","type":"int64""#,
            "run 1",
            0,
            "s {} 32761",
        ),
        (ADD, "", "", "run 1", 0, "y {2,2} 11 22 33 44"),
        (SQUARE, "", "", "run 1", 0, "s {} 32761"),
    ];
    for (document, old, new, words, status, written) in cases {
        let (code, line) = answer_of(&rt, rt.alloc(), document, old, new, words)?;
        assert_eq!(rt; line.as_str(), written);
        assert_eq!(rt; code, status);
    }
    Ok(())
}

#[test]
fn places_of_texts_and_keys(rt: HostRuntime) -> Result<(), Fail> {
    // the document, a part of it, and what stands in its place; the words; the status and the line
    let cases = [
        (
            ADD,
            r#""{2,2}"}]}]"#,
            r#""{2,"}],"note":0}]"#,
            "print",
            7,
            "grammar $.model.tasks[0]",
        ),
        (
            ADD,
            r#""{2,2}"}]}]"#,
            r#""{2,"}]}]"#,
            "print",
            7,
            "grammar $.model.tasks[0].out[0].shape@3",
        ),
        (
            ADD,
            r#""{2,2}"}]}]"#,
            r#""{2,4194305}"}]}]"#,
            "print",
            9,
            "limit $.model.tasks[0].out[0].shape@3 entry",
        ),
        (
            ADD,
            r#""version":2"#,
            r#""version":3"#,
            "print",
            7,
            "grammar $.version",
        ),
        (
            ADD,
            r#""version":2"#,
            r#""note":2"#,
            "print",
            7,
            "grammar $",
        ),
        (
            ADD,
            r#""{2,2}"},{"#,
            r#""{2,2}","type":"int8"},{"#,
            "print",
            7,
            "grammar $.model.tasks[0].in[0].type",
        ),
        (
            ADD,
            "[1,2,3,4]",
            "[1,-0,3,4]",
            "run 1",
            7,
            "grammar $.input[0][1]",
        ),
    ];
    for (document, old, new, words, status, written) in cases {
        let (code, line) = answer_of(&rt, rt.alloc(), document, old, new, words)?;
        assert_eq!(rt; line.as_str(), written);
        assert_eq!(rt; code, status);
    }
    Ok(())
}

#[test]
fn rules_and_limits(rt: HostRuntime) -> Result<(), Fail> {
    // the document, a part of it, and what stands in its place; the words; the status and the line
    let cases = [
        (
            ADD,
            "a{$0,$1}+b{$0,$1}",
            "c{0,0}",
            "print",
            8,
            "shape $.model.tasks[0].out[0].expr rule 3",
        ),
        (
            ADD,
            r#""main":"Add""#,
            r#""main":"Sub""#,
            "run 1",
            8,
            "shape $.model.main rule 23",
        ),
        (
            ADD,
            r#"}]},"transform"#,
            r#"},{"in":[{"name":"a","shape":"{2,2}"},{"name":"b","shape":"{2,2}"}],"kind":"compound","links":[{"from":"a","to":"p.a"},{"from":"b","to":"p.b"},{"from":"p.y","to":"y"}],"name":"Up","out":[{"name":"y","shape":"{2,2}"}],"parts":[{"name":"p","task":"Add"}],"reshapes":[]}],"main":"Up"},"transform"#,
            "run 1",
            0,
            "y {2,2} 11 22 33 44",
        ),
        (
            ADD,
            r#"}]},"transform"#,
            r#"},{"in":[{"name":"a","shape":"{2,2}"},{"name":"b","shape":"{2,2}"}],"kind":"compound","links":[{"from":"a","to":"p.a"},{"from":"b","to":"p.b"},{"from":"p.y","to":"y"}],"name":"Up","out":[{"name":"y","shape":"{2,2}"}],"parts":[{"name":"p","task":"Add"}],"reshapes":[]}],"main":"Up"},"transform"#,
            "check",
            0,
            "accepted 1 instances 1 levels",
        ),
        (ONES, "4095", "4096", "print", 9, "limit / work"),
        (
            ONES,
            r#"{4095}"}]}]},"transform":[]"#,
            r#"{4096}"}]}]},"transform":[{"block":"{2}","kind":"tile","outer":"{2}","task":"Ones"}]"#,
            "run 1",
            9,
            "limit / work",
        ),
    ];
    for (document, old, new, words, status, written) in cases {
        let (code, line) = answer_of(&rt, rt.alloc(), document, old, new, words)?;
        assert_eq!(rt; line.as_str(), written);
        assert_eq!(rt; code, status);
    }
    Ok(())
}

/// A document is read, laid out and tested: what is accepted.
#[test]
fn models_that_are_accepted(rt: HostRuntime) -> Result<(), Fail> {
    // the document, the words, the status and the line
    let cases = [
        (ADD, "check", 0, "accepted 1 instances 1 levels"),
        (ONES, "check", 0, "accepted 1 instances 1 levels"),
        (FILTER, "check", 0, "accepted 8 instances 1 levels"),
        (SUMS, "check", 0, "accepted 6 instances 6 levels"),
        (TWO, "check", 0, "accepted 6 instances 3 levels"),
        (FLIP, "check", 0, "accepted 6 instances 1 levels"),
        (CHAIN, "check", 0, "accepted 12 instances 2 levels"),
        (FILTER, "print", 0, FILTER),
        (GRID, "print", 0, GRID),
        (FLIP, "print", 0, FLIP),
        (FILTER, "run 3", 0, "y {8} 11 6 9 12 15 18 21 16"),
        (MATRIX, "run 1", 0, "c {2,2} 58 64 139 154"),
        (SUMS, "run 4", 0, "y {6} 3 4 8 9 14 23"),
        (TWO, "run 2", 0, "y {3} 1 3 6\nz {3} 6 5 3"),
        (FLIP, "run 64", 0, "y {3,2} 1 4 2 5 3 6"),
        (CHAIN, "run 2", 0, "z {4} 26 36 54 48"),
        (ONE, "run 1", 0, "y {} 42"),
        (GRID, "run 3", 0, "y {2,2} -1 -2 -3 -4"),
        (NEED, "run 1", 16, "fault overflow Big y {1}"),
        (FILTER, "place 3", 0, "/* 0 0 0 1 1 1 2 2"),
        (FLIP, "place 2", 0, "/#0 0 0 0 1 1 1"),
        (ADD, "place 64", 0, "/ 0"),
        (ONE, "place 1", 0, "/* 0"),
        (GRID, "place 1", 0, "/* 0 0 0 0"),
        (GRID, "place 3", 0, "/* 0 2 1 0"),
        (GRID, "place 64", 0, "/* 0 2 1 3"),
    ];
    for (document, words, status, written) in cases {
        let (code, line) = answer_of(&rt, rt.alloc(), document, "", "", words)?;
        assert_eq!(rt; line.as_str(), written);
        assert_eq!(rt; code, status);
    }
    Ok(())
}

/// And what is refused, and why entries place nothing.
#[test]
fn models_that_are_refused(rt: HostRuntime) -> Result<(), Fail> {
    // the document, a part of it, and what stands in its place; the words; the status and the line
    let cases = [
        (WIDE, "", "", "check", 9, "limit /* walk"),
        (
            SPREAD,
            "",
            "",
            "check",
            10,
            "twice / y {2} first 1 {0} {2} second 1 {1} {0}",
        ),
        (
            PASS,
            r#"{"from":"x","to":"h.x"},{"from":"h.y","to":"s.z"},{"from":"s.q","to":"q"}],"name":"Pass3","out":[{"name":"q","shape":"{3}"}],"parts":[{"name":"h","task":"Holes"},{"name":"s","task":"Skip3"}],"reshapes":[]"#,
            r#"{"from":"s.q","to":"q"}],"name":"Pass3","out":[{"name":"q","shape":"{3}"}],"parts":[{"name":"s","task":"Skip3"}],"reshapes":[{"from":"x","to":"s.z","space":"{3}","pattern":"{}","source":"(origin={0},paving={{1}},fitting={})","target":"(origin={0},paving={{3}},fitting={})"},{"from":"x","to":"s.z","space":"{3}","pattern":"{}","source":"(origin={0},paving={{1}},fitting={})","target":"(origin={1},paving={{1}},fitting={})"}]"#,
            "print",
            10,
            "twice / s.z {3} first 0 {1} {} second 1 {2} {}",
        ),
        (PASS, "", "", "place 1", 11, "unwritten /s/*{0} p {2}"),
        (
            PASS,
            r#""p","shape":"{3}""#,
            r#""p","shape":"{2}""#,
            "run 2",
            0,
            "q {3} 21 41 61",
        ),
        (
            PASS,
            r#""main":"Pass3""#,
            r#""main":"Holes""#,
            "run 1",
            11,
            "unwritten main y {2}",
        ),
        (
            PASS,
            r#",{"from":"h.y","to":"s.z"},{"from":"s.q","to":"q"}],"name":"Pass3","out":[{"name":"q","shape":"{3}"}],"parts":[{"name":"h","task":"Holes"},{"name":"s","task":"Skip3"}],"reshapes":[]"#,
            r#"],"name":"Pass3","out":[{"name":"q","shape":"{9}"}],"parts":[{"name":"h","task":"Holes"}],"reshapes":[{"from":"h.y","to":"q","space":"{9}","pattern":"{}","source":"(origin={0},paving={{1}},fitting={})","target":"(origin={0},paving={{1}},fitting={})"}]"#,
            "check",
            11,
            "unwritten /#0{2} from {}",
        ),
        (ROUND, "", "", "check", 12, "cycle /*{0}"),
        (
            GRID,
            r#""transform":[]"#,
            r#""transform":[{"block":"{2}","kind":"skew","outer":"{2}","task":"Grid"}]"#,
            "place 3",
            17,
            "unbuilt",
        ),
        (
            GRID,
            "paving={{1,0},{0,1}}",
            "paving={{1,0},{0,0}}",
            "place 3",
            15,
            "allocate 0 twice {0,0}",
        ),
        (
            GRID,
            r#"paving={{1,0},{0,1}},fitting={})","leaf":"/*","pattern":"{}","processors":"{2,2}","space":"{2,2}""#,
            r#"paving={{1,0},{0,0}},fitting={})","leaf":"/*","pattern":"{}","processors":"{2,2}","space":"{2,1}""#,
            "place 3",
            15,
            "allocate 0 unplaced {0,1}",
        ),
        (GRID, "/*", "/a", "place 3", 15, "allocate 0 no-leaf"),
        (
            GRID,
            r#""processors":"{2,2}""#,
            r#""processors":"{4}""#,
            "place 3",
            15,
            "allocate 0 shape",
        ),
    ];
    for (document, old, new, words, status, written) in cases {
        let (code, line) = answer_of(&rt, rt.alloc(), document, old, new, words)?;
        assert_eq!(rt; line.as_str(), written);
        assert_eq!(rt; code, status);
    }
    Ok(())
}

#[test]
fn inputs_and_faults(rt: HostRuntime) -> Result<(), Fail> {
    // the document, a part of it, and what stands in its place; the words; the status and the line
    let cases = [
        (
            ADD,
            r#","b":[10,20,30,40]"#,
            "",
            "run 1",
            13,
            "input b absent",
        ),
        (
            ADD,
            "[10,20,30,40]",
            "[1,2,3]",
            "run 1",
            13,
            "input b length",
        ),
        (
            STEPPED,
            "[10,20,30,40]",
            "[1,2,3]",
            "run 1",
            13,
            "input b length",
        ),
        (STEPPED, "", "", "run 1", 17, "unbuilt"),
        (
            NEED,
            r#""z","tiler":"(origin={1}"#,
            r#""z","tiler":"(origin={0}"#,
            "run 1",
            0,
            "q {1} 9223372036854775807",
        ),
        (
            GRID,
            r#""leaf":"/*""#,
            r#""leaf":"/a""#,
            "run 3",
            15,
            "allocate 0 no-leaf",
        ),
        (ADD, "40]", r#"40],"c":[]"#, "run 1", 13, "input c unknown"),
        (
            ADD,
            r#"[1,2,3,4],"b":[10"#,
            r#"[9223372036854775807,2,3,4],"b":[1"#,
            "run 1",
            16,
            "fault overflow Add y {0,0}",
        ),
        (ADD, "a{$0,", "a{2,", "run 1", 16, "fault index Add y {0,0}"),
        (
            ADD,
            "+b{$0,$1}",
            "/(b{$0,$1}-30)",
            "run 1",
            16,
            "fault divide Add y {1,0}",
        ),
        (SQUARE, "181", "182", "run 1", 16, "fault range Sq16 s {}"),
        (SQUARE, "181", "32768", "run 1", 16, "fault range Sq16 s {}"),
    ];
    for (document, old, new, words, status, written) in cases {
        let (code, line) = answer_of(&rt, rt.alloc(), document, old, new, words)?;
        assert_eq!(rt; line.as_str(), written);
        assert_eq!(rt; code, status);
    }
    Ok(())
}

#[test]
fn fronts_and_deep_texts_are_no_documents(rt: HostRuntime) -> Result<(), Fail> {
    let alloc = rt.alloc();
    for size in 0..41 {
        let (front, _) = ADD.as_bytes().split_at_checked(size).ok_or("too short")?;
        let (code, sink) = called(&rt, alloc, "print", front, 0, 0)?;
        assert_eq!(rt; from_utf8(sink.bytes())?, "json\n");
        assert_eq!(rt; code, 6);
    }
    for (depth, status, line) in [(128usize, 6, "json\n"), (127, 7, "grammar $\n")] {
        let mut bytes = vec![in alloc; b'['; depth]?;
        let closing = vec![in alloc; b']'; depth]?;
        bytes.extend_from_slice(closing.as_slice())?;
        let (code, sink) = called(&rt, alloc, "print", bytes.as_slice(), 0, 0)?;
        assert_eq!(rt; from_utf8(sink.bytes())?, line);
        assert_eq!(rt; code, status);
    }
    Ok(())
}

#[test]
fn a_task_has_at_most_64_ports(rt: HostRuntime) -> Result<(), Fail> {
    let alloc = rt.alloc();
    let most = with_inputs(alloc, 63)?;
    let (code, _) = called(&rt, alloc, "print", most.as_bytes(), 0, 0)?;
    assert_eq!(rt; code, 0);
    let more = with_inputs(alloc, 64)?;
    let (code, sink) = called(&rt, alloc, "print", more.as_bytes(), 0, 0)?;
    assert_eq!(rt;
        from_utf8(sink.bytes())?,
        "limit $.model.tasks[0].out ports\n"
    );
    assert_eq!(rt; code, 9);
    Ok(())
}

#[test]
fn calls_end_as_they_must(rt: HostRuntime) -> Result<(), Fail> {
    let alloc = rt.alloc();
    // the words, the bytes, the read and the write that fail, the status and what is written
    let cases = [
        ("run 1", ADD, 0, 2, 3, "y {2,"),
        ("print", ADD, 0, 1, 3, ""),
        ("run 1", ADD, 2, 0, 2, "read\n"),
        ("print", ADD, 1, 0, 2, "read\n"),
        ("run 1", "{}", 0, 0, 7, "grammar $\n"),
        ("run 1", "", 0, 0, 6, "json\n"),
        ("", ADD, 1, 0, 1, "words\n"),
        ("run", ADD, 1, 0, 1, "words\n"),
        ("run 0", ADD, 1, 0, 1, "words\n"),
        ("run 2", ADD, 1, 0, 2, "read\n"),
        ("run 65", ADD, 1, 0, 1, "words\n"),
        ("run 01", ADD, 1, 0, 1, "words\n"),
        ("run 1 1", ADD, 1, 0, 1, "words\n"),
        ("print 1", ADD, 1, 0, 1, "words\n"),
        ("Print", ADD, 1, 0, 1, "words\n"),
        ("check", ADD, 1, 0, 2, "read\n"),
        ("check 1", ADD, 1, 0, 1, "words\n"),
        ("place", ADD, 1, 0, 1, "words\n"),
        ("place 0", ADD, 1, 0, 1, "words\n"),
        ("place 01", ADD, 1, 0, 1, "words\n"),
        ("place 65", ADD, 1, 0, 1, "words\n"),
        ("place 1", ADD, 1, 0, 2, "read\n"),
        ("--help", ADD, 1, 0, 1, "words\n"),
    ];
    for (words, document, failing_read, failing_write, status, written) in cases {
        let (code, sink) = called(
            &rt,
            alloc,
            words,
            document.as_bytes(),
            failing_read,
            failing_write,
        )?;
        assert_eq!(rt; from_utf8(sink.bytes())?, written);
        assert_eq!(rt; code, status);
    }
    Ok(())
}

#[test]
fn a_document_has_at_most_16_mebibytes(rt: HostRuntime) -> Result<(), Fail> {
    let alloc = rt.alloc();
    let cases = [
        (16_777_216usize, 0, "y {2,2} 11 22 33 44\n"),
        (16_777_217, 5, "long\n"),
    ];
    for (size, status, written) in cases {
        let blanks = size.checked_sub(ADD.as_bytes().len()).ok_or("too small")?;
        let mut bytes = vec![in alloc; b' '; blanks]?;
        bytes.extend_from_slice(ADD.as_bytes())?;
        let (code, sink) = called(&rt, alloc, "run 1", bytes.as_slice(), 0, 0)?;
        assert_eq!(rt; from_utf8(sink.bytes())?, written);
        assert_eq!(rt; code, status);
    }
    Ok(())
}

/// A cell: its value, and after a sign the worker that wrote it.
fn cell_text(alloc: Global, kept: Kept) -> Result<String, Fail> {
    let worker = kept.worker;
    match kept.val {
        Val::Num(number) => Ok(format!(in alloc; " {number}@{worker}")?),
        Val::Bad(_) => Ok(format!(in alloc; " bad@{worker}")?),
    }
}

/// What ran: how many instances and workers there are, and then the cells.
fn text_of(alloc: Global, ran: &Ran) -> Result<String, Fail> {
    let instances = ran.flat.instances();
    let workers = ran.placed.workers();
    let mut text = format!(in alloc; "{instances} {workers}")?;
    for cell in 0..ran.memory.len() {
        let more = cell_text(alloc, ran.memory.get(cell))?;
        text.push_str(more.as_str())?;
    }
    Ok(text)
}

/// What a call hands back; empty where nothing ran.
fn ran_of<R: Threads + Sync, G: Gate>(
    rt: &R,
    alloc: Global,
    words: &str,
    document: &str,
    gate: &G,
) -> Result<String, Fail> {
    let mut sink = sink_of(alloc, 0)?;
    let mut source = source_of(alloc, document.as_bytes(), 0)?;
    let given = words_of(alloc, words)?;
    let status = aol(rt, alloc, given.as_slice(), &mut source, &mut sink, gate);
    match status.ran {
        Some(ran) => text_of(alloc, &ran),
        None => Ok(String::new(alloc)),
    }
}

/// A run hands back its memory, with the worker of each cell; other calls hand back nothing.
#[test]
fn what_ran_is_handed_back(rt: HostRuntime) -> Result<(), Fail> {
    // the words, the document, and the instances, the workers and the cells
    let cases = [
        (
            "run 12",
            CHAIN,
            "12 12 1@0 2@0 3@0 4@0 5@0 6@0 7@0 8@0 26@0 36@3 54@6 48@9 11@0 6@1 9@3 12@4 15@6 18@7 21@9 16@10",
        ),
        (
            "run 3",
            FILTER,
            "8 3 1@0 2@0 3@0 4@0 5@0 6@0 7@0 8@0 11@0 6@0 9@0 12@1 15@1 18@1 21@2 16@2",
        ),
        ("run 3", GRID, "4 3 1@0 2@0 3@0 4@0 -1@0 -2@2 -3@1 -4@0"),
        (
            "run 1",
            NEED,
            "2 1 9223372036854775807@0 bad@0 9223372036854775807@0 bad@0",
        ),
        ("run 1", STEPPED, ""),
        ("place 3", FILTER, ""),
        ("check", FILTER, ""),
    ];
    for (words, document, ran) in cases {
        let handed = ran_of(&rt, rt.alloc(), words, document, &NoGate)?;
        assert_eq!(rt; handed.as_str(), ran);
    }
    Ok(())
}

/// A gate that counts the passes.
#[derive(Drop)]
struct Counter {
    passes: AtomicU64,
}

impl Gate for Counter {
    fn pass(&self, _level: u32, _worker: u32) {
        self.passes.fetch_add(1, Ordering::SeqCst);
    }
}

/// Each worker passes the gate once in each level in which it has an instance.
#[test]
fn workers_pass_the_gate(rt: HostRuntime) -> Result<(), Fail> {
    // the words, the document and the passes
    let cases = [
        ("run 1", FILTER, 1u64),
        ("run 8", FILTER, 8),
        ("run 64", FILTER, 8),
        ("run 12", CHAIN, 12),
        ("run 4", SUMS, 6),
        ("run 2", TWO, 5),
        ("place 2", TWO, 0),
    ];
    for (words, document, passes) in cases {
        let gate = Counter {
            passes: AtomicU64::new(0),
        };
        let _ = ran_of(&rt, rt.alloc(), words, document, &gate)?;
        assert_eq!(rt; gate.passes.load(Ordering::SeqCst), passes, "{words}");
    }
    Ok(())
}

/// A gate at which two workers wait for one another, and which counts those that waited in vain.
#[derive(Drop)]
struct Meeting {
    first: AtomicU64,
    second: AtomicU64,
    alone: AtomicU64,
}

impl Gate for Meeting {
    fn pass(&self, _level: u32, worker: u32) {
        let (own, other) = if worker == 0 {
            (&self.first, &self.second)
        } else {
            (&self.second, &self.first)
        };
        own.store(1, Ordering::SeqCst);
        for _ in 0..100_000_000u32 {
            if other.load(Ordering::SeqCst) == 1 {
                return;
            }
        }
        self.alone.fetch_add(1, Ordering::SeqCst);
    }
}

/// Two workers of one level run at once.
#[test]
fn two_workers_meet(rt: HostRuntime) -> Result<(), Fail> {
    let gate = Meeting {
        first: AtomicU64::new(0),
        second: AtomicU64::new(0),
        alone: AtomicU64::new(0),
    };
    let _ = ran_of(&rt, rt.alloc(), "run 2", FILTER, &gate)?;
    assert_eq!(rt; gate.first.load(Ordering::SeqCst), 1);
    assert_eq!(rt; gate.second.load(Ordering::SeqCst), 1);
    assert_eq!(rt; gate.alone.load(Ordering::SeqCst), 0);
    Ok(())
}

#[test]
fn programs_are_run(rt: HostRuntime) -> Result<(), Fail> {
    // a part of the sample, and what stands in its place; the status and the lines
    let cases = [
        ("", "", 0, "V 1 2 3\nF 0 0 0"),
        ("up", "down", 0, "V 1 2 3\nF 0 0 0"),
        ("1,2", "-7", 0, "V -7 0 -7\nF 0 0 0"),
        ("1,2", "9223372036854775807,1", 18, "stuck 0 0"),
        (
            "step_0_1(void) {",
            "step_0_1(void) {\\nV[3LL] = 0LL;",
            18,
            "stuck 0 1",
        ),
        ("3]", "3]]", 7, "grammar $.program@3"),
        ("V[2LL]", "V[2LL]]", 7, "grammar $.program@6"),
        ("up", "side", 7, "grammar $.order"),
        (
            "void step_0_1(void) {",
            "void step_0_1(void) {\\ni64 a0 = 0LL;\\nfor (a0 = 0LL; a0 < 4294967296LL; a0 = a0 + 1LL) {\\n}",
            9,
            "limit $.program work",
        ),
        ("1,2", "1,2,3,4", 13, "input memory length"),
        ("{\"memory\"", "{memory", 6, "json"),
    ];
    for (old, new, status, written) in cases {
        let (code, lines) = answer_of(&rt, rt.alloc(), PROGRAM, old, new, "exec")?;
        assert_eq!(rt; lines.as_str(), written);
        assert_eq!(rt; code, status);
    }
    Ok(())
}
