use aol_exec::{JobRefused, exec_answer};
use aol_model_types::{Place, limit_text};
use aol_shape::LimitName;
use serde_json::Value;
use std::alloc::Global;
use std::test::Fail;

/// A program of two steps, up to the text of the first one's only statement.
const HEAD: &str = "/* AOL-C/1 */
typedef long long i64;
i64 V[3];
i64 F[3];
void step_0_0(void) {
";

/// The rest of it, where the second step is empty.
const TAIL: &str = "}
void step_0_1(void) {
}
void run(void) {
step_0_0();
step_0_1();
}
";

/// The rest of it, where the second step does nothing for long.
const LONG: &str = "}
void step_0_1(void) {
i64 a0 = 0LL;
for (a0 = 0LL; a0 < 4294967296LL; a0 = a0 + 1LL) {
}
}
void run(void) {
step_0_0();
step_0_1();
}
";

/// A program with more cells than the limit, and more work.
const MANY: &str = "/* AOL-C/1 */
typedef long long i64;
i64 V[16777217];
i64 F[16777217];
void step_0_0(void) {
i64 a0 = 0LL;
for (a0 = 0LL; a0 < 4294967296LL; a0 = a0 + 1LL) {
}
}
void run(void) {
step_0_0();
}
";

const SUM: &str = "V[2LL] = (V[0LL] + V[1LL]);\n";

/// A place after a word.
fn at(alloc: Global, word: &str, place: &Place) -> Result<String, Fail> {
    let mut line = String::from_str(alloc, word)?;
    place.write_to(&mut line)?;
    Ok(line)
}

/// A limit that is passed at a place.
fn limit_at(alloc: Global, place: &Place, name: LimitName) -> Result<String, Fail> {
    let mut line = at(alloc, "limit ", place)?;
    line.push_str(" ")?;
    line.push_str(limit_text(name))?;
    Ok(line)
}

/// A refusal in words.
fn refusal_text(alloc: Global, refused: &JobRefused) -> Result<String, Fail> {
    match refused {
        JobRefused::Grammar(place) => at(alloc, "grammar ", place),
        JobRefused::Limit(place, name) => limit_at(alloc, place, *name),
        JobRefused::LongMemory => Ok(String::from_str(alloc, "input memory length")?),
        JobRefused::Stuck { level, worker } => { Ok(format!(in alloc; "stuck {level} {worker}")?) }
        JobRefused::NoMemory => Err("no memory".into()),
    }
}

/// What is answered to a tree, in words.
fn answer(alloc: Global, tree: &Value) -> Result<String, Fail> {
    match exec_answer(alloc, tree) {
        Ok(lines) => Ok(lines),
        Err(refused) => refusal_text(alloc, &refused),
    }
}

/// What is answered to the tree with this text.
fn answer_to(alloc: Global, text: &str) -> Result<String, Fail> {
    let tree = Value::from_str(alloc, text)?;
    answer(alloc, &tree)
}

/// What is answered to a program of three texts, with this order and these numbers.
fn answer_of(
    alloc: Global,
    texts: (&str, &str, &str),
    order: &str,
    memory: &str,
) -> Result<String, Fail> {
    let mut program = String::from_str(alloc, texts.0)?;
    program.push_str(texts.1)?;
    program.push_str(texts.2)?;
    let text = format!(in alloc;
        "{{\"order\":{order},\"program\":{program:?},\"memory\":{memory}}}"
    )?;
    answer_to(alloc, text.as_str())
}

#[test]
fn programs_are_answered(rt: HostRuntime) -> Result<(), Fail> {
    let sum = (HEAD, SUM, TAIL);
    let twice = (HEAD, "V[0LL] = (V[0LL] * 2LL);\nF[1LL] = (-7LL);\n", TAIL);
    let spoiled = (HEAD, "V[3LL]] = (V[0LL] + V[1LL]);\n", TAIL);
    let long = (HEAD, SUM, LONG);
    for (texts, order, memory, want) in [
        (sum, "\"up\"", "[1,2]", "V 1 2 3\nF 0 0 0\n"),
        (sum, "\"down\"", "[1,2]", "V 1 2 3\nF 0 0 0\n"),
        (twice, "\"up\"", "[-3,2,9]", "V -6 2 9\nF 0 -7 0\n"),
        (sum, "\"up\"", "[]", "V 0 0 0\nF 0 0 0\n"),
        (sum, "\"up\"", "[9223372036854775807,1]", "stuck 0 0"),
        (sum, "\"down\"", "[9223372036854775807,1]", "stuck 0 0"),
        (sum, "\"up\"", "[1,2,3,4]", "input memory length"),
        (long, "\"up\"", "[1,2,3,4]", "limit $.program work"),
        ((MANY, "", ""), "\"up\"", "[]", "limit $.program cells"),
        (spoiled, "\"up\"", "[1,2]", "grammar $.program@6"),
        (spoiled, "\"no\"", "null", "grammar $.program@6"),
        (("", "", ""), "\"up\"", "[1,2]", "grammar $.program@1"),
        (sum, "\"Up\"", "[1,2]", "grammar $.order"),
        (sum, "1", "[1,2.0]", "grammar $.memory[1]"),
        (
            sum,
            "\"up\"",
            "[9223372036854775808]",
            "grammar $.memory[0]",
        ),
        (sum, "\"up\"", "\"1\"", "grammar $.memory"),
    ] {
        let got = answer_of(rt.alloc(), texts, order, memory)?;
        assert_eq!(rt; got.as_str(), want, "{memory} {order}");
    }
    Ok(())
}

#[test]
fn other_objects_are_refused(rt: HostRuntime) -> Result<(), Fail> {
    for (text, want) in [
        ("[]", "grammar $"),
        ("{}", "grammar $"),
        ("{\"program\":\"\",\"memory\":[]}", "grammar $"),
        (
            "{\"program\":\"\",\"memory\":[],\"order\":\"up\",\"note\":1}",
            "grammar $",
        ),
        (
            "{\"program\":1,\"memory\":2,\"order\":3}",
            "grammar $.program",
        ),
    ] {
        let got = answer_to(rt.alloc(), text)?;
        assert_eq!(rt; got.as_str(), want, "{text}");
    }
    Ok(())
}
