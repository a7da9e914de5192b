use crate::samples::{BLOCKS, SUMS, TILED, WRAPPED};
use crate::tests::answer_of;
use std::test::Fail;

#[test]
fn steps_are_taken_or_refused(rt: HostRuntime) -> Result<(), Fail> {
    let lost = "transform 0 lost main y {8} needs /*{8} s {}";
    let twice = "transform 0 twice / y {0} first 1 {0} {0} second 1 {2} {2}";
    // the document, a part of it, and what stands in its place; the words; the status and the line
    let cases = [
        (TILED, "", "", "transform", 0, BLOCKS),
        (
            TILED,
            "",
            "",
            "run 2",
            0,
            "y {10} -1 -2 -3 -4 -5 -6 -7 -8 -9 -10",
        ),
        (TILED, "", "", "place 2", 0, "/*/* 0 0 0 0 0 1 1 1 1 1"),
        (TILED, "", "", "check", 0, "accepted 10 instances 1 levels"),
        (
            TILED,
            r#"{"block":"{2}","kind":"tile","outer":"{5}""#,
            r#"{"block":"{4}","kind":"tile","outer":"{2}""#,
            "transform",
            14,
            lost,
        ),
        (
            TILED,
            r#"{"block":"{2}","kind":"tile","outer":"{5}""#,
            r#"{"block":"{4}","kind":"tile","outer":"{2}""#,
            "run 1",
            14,
            lost,
        ),
        (
            TILED,
            r#"{"block":"{2}","kind":"tile","outer":"{5}""#,
            r#"{"block":"{4}","kind":"tile","outer":"{2}""#,
            "place 1",
            14,
            lost,
        ),
        (
            TILED,
            r#"{"block":"{2}","kind":"tile","outer":"{5}""#,
            r#"{"block":"{4}","kind":"tile","outer":"{3}""#,
            "transform",
            14,
            twice,
        ),
        (
            TILED,
            r#"{"block":"{2}","kind":"tile","outer":"{5}""#,
            r#"{"block":"{4}","kind":"tile","outer":"{3}""#,
            "run 1",
            14,
            twice,
        ),
        (
            TILED,
            r#"{"block":"{2}","kind":"tile","outer":"{5}""#,
            r#"{"block":"{2}","kind":"tile","outer":"{5,1}""#,
            "transform",
            14,
            "transform 0 rank",
        ),
        (
            TILED,
            r#"{"block":"{2}","kind":"tile","outer":"{5}""#,
            r#"{"block":"{2}","kind":"pave","outer":"{5}""#,
            "transform",
            14,
            "transform 0 not-two-levels",
        ),
        (
            TILED,
            r#"{"block":"{2}","kind":"tile","outer":"{5}""#,
            r#"{"block":"{2}","kind":"skew","outer":"{5}""#,
            "transform",
            17,
            "unbuilt",
        ),
        (
            TILED,
            r#""task":"Ten"}],"version""#,
            r#""task":"Neg"}],"version""#,
            "transform",
            14,
            "transform 0 not-repeated",
        ),
        (
            TILED,
            r#""task":"Ten"}],"version""#,
            r#""task":"Ten"},{"block":"{2}","kind":"tile","outer":"{1}","task":"Ten_1"}],"version""#,
            "run 1",
            0,
            "y {10} -1 -2 -3 -4 -5 -6 -7 -8 -9 -10",
        ),
        (
            TILED,
            r#""task":"Ten"}],"version""#,
            r#""task":"Ten"},{"block":"{3}","kind":"tile","outer":"{1}","task":"Ten_1"}],"version""#,
            "transform",
            14,
            "transform 1 twice /* s {0} first 1 {0} {0} second 1 {0} {2}",
        ),
        (
            TILED,
            "[1,2,3,4,5,6,7,8,9,10]",
            "[1]",
            "run 1",
            13,
            "input x length",
        ),
        (
            SUMS,
            r#""transform":[]"#,
            r#""transform":[{"block":"{2}","kind":"tile","outer":"{3}","task":"Run6"}]"#,
            "transform",
            14,
            "transform 0 has-links",
        ),
        (
            WRAPPED,
            "",
            "",
            "transform",
            14,
            "transform 0 lost /*/*{0,0,3} w {1} needs input x {0}",
        ),
    ];
    for (document, old, new, words, status, written) in cases {
        let (code, line) = answer_of(&rt, rt.alloc(), document, old, new, words)?;
        assert_eq!(rt; line.as_str(), written);
        assert_eq!(rt; code, status);
    }
    Ok(())
}
