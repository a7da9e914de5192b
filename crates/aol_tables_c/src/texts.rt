use crate::programs::{CLOSE, FIRST, LAST, OPEN, read};
use aol_csyn::write_c;
use aol_io::MemSink;
use aol_shape::Items;
use std::alloc::Global;
use std::test::Fail;

/// Whether the text is a program's, and writing that program gives these bytes.
fn is_written_again(
    alloc: Global,
    first: &str,
    second: &str,
    third: &str,
    piece: u32,
) -> Result<bool, Fail> {
    let room = Items::from_vec(vec![in alloc; 0u8; 1000]?);
    let mut sink = MemSink::new(room, piece, Items::new(alloc)).ok_or("no sink")?;
    let Ok(program) = read(alloc, first, second, third)? else {
        return Ok(false);
    };
    let written = write_c(&program, &mut sink).is_ok();
    let mut text = String::new(alloc);
    text.push_str(first)?;
    text.push_str(second)?;
    text.push_str(third)?;
    Ok(written && sink.bytes() == text.as_bytes())
}

#[test]
fn a_program_has_its_text(rt: HostRuntime) -> Result<(), Fail> {
    for piece in [1, 7, 1000] {
        assert!(rt; is_written_again(rt.alloc(), FIRST, "", LAST, piece)?);
    }
    for body in [
        "",
        "a0 = (-9223372036854775807LL - 1LL);\n",
        "a1 = T0[(a0 % 2LL)];\n",
        "if ((a0 <= 1LL)) {\nF[0LL] = (-1LL);\n} else {\n}\n",
        "for (a1 = (-2LL); a1 < 0LL; a1 = a1 + 1LL) {\nfor (a0 = 0LL; a0 < 0LL; a0 = a0 + 1LL) {\n}\n}\n",
    ] {
        assert!(rt;
            is_written_again(rt.alloc(), OPEN, body, CLOSE, 7)?,
            "{body}"
        );
    }
    Ok(())
}

/// The line at which a text is no program's, or 0 where it is one.
fn wrong_line(alloc: Global, first: &str, second: &str, third: &str) -> Result<u32, Fail> {
    match read(alloc, first, second, third)? {
        Ok(program) => {
            drop(program);
            Ok(0)
        }
        Err(line) => Ok(line),
    }
}

#[test]
fn a_statement_is_wrong_at_its_line(rt: HostRuntime) -> Result<(), Fail> {
    for (body, line) in [
        ("a0 = 1LL;\n", 0),
        ("a2 = 1LL;\n", 9),
        ("a0 = a2;\n", 9),
        ("a0 = T1[0LL];\n", 9),
        ("a0 = 01LL;\n", 9),
        ("a0 = (-0LL);\n", 9),
        ("a0 = 9223372036854775808LL;\n", 9),
        ("a0 = (-9223372036854775808LL);\n", 9),
        (" a0 = 1LL;\n", 9),
        ("a0 = (1LL +  2LL);\n", 9),
        ("a0 = 1LL; \n", 9),
        ("a0 = 1LL;\n\n", 10),
        ("i64 a2 = 0LL;\n", 0),
        ("i64 a3 = 0LL;\n", 9),
        ("a0 = 1LL;\ni64 a2 = 0LL;\n", 10),
        ("if (1LL) {\n}\n", 10),
        ("for (a0 = 1LL; a0 < 0LL; a0 = a0 + 1LL) {\n}\n", 9),
        ("for (a0 = 1LL; a1 < 2LL; a0 = a0 + 1LL) {\n}\n", 9),
        (
            "for (a0 = 0LL; a0 < 2LL; a0 = a0 + 1LL) {\na0 = 1LL;\n}\n",
            10,
        ),
        (
            "for (a0 = 0LL; a0 < 2LL; a0 = a0 + 1LL) {\nfor (a0 = 0LL; a0 < 1LL; a0 = a0 + 1LL) {\n}\n}\n",
            10,
        ),
    ] {
        assert_eq!(rt; wrong_line(rt.alloc(), OPEN, body, CLOSE)?, line, "{body}");
    }
    Ok(())
}

#[test]
fn whole_lines_are_counted(rt: HostRuntime) -> Result<(), Fail> {
    let head = "/* AOL-C/1 */\ntypedef long long i64;\n";
    for (first, second, line) in [
        ("", "", 1),
        ("\r\n", "", 1),
        ("/* AOL-C/1 */\r\n", "", 1),
        (FIRST, "", 9),
        (FIRST, "}", 9),
        (
            FIRST,
            "}\nvoid run(void) {\nstep_0_0();\nstep_0_1();\n}",
            13,
        ),
        (
            FIRST,
            "}\nvoid run(void) {\nstep_0_0();\nstep_0_1();\n}\n",
            0,
        ),
        (
            FIRST,
            "}\nvoid run(void) {\nstep_0_0();\nstep_0_1();\n}\n\n",
            14,
        ),
        (FIRST, "}\nvoid run(void) {\nstep_0_0();\n}\n", 12),
        (FIRST, "}\nvoid run(void) {\nstep_0_1();\n", 11),
        (FIRST, "}\nvoid step_1_0(void) {\n}\nvoid run(void) {\n", 12),
        (FIRST, "}\nvoid step_1_1(void) {\n", 10),
        (head, "i64 V[0];\n", 3),
        (head, "i64 V[3];\ni64 F[4];\n", 4),
        (head, "static const i64 T0[1] = {1LL,2LL};\n", 3),
        (head, "static const i64 T1[1] = {1LL};\n", 3),
        (head, "i64 V[3];\ni64 F[3];\nvoid run(void) {\n", 5),
    ] {
        assert_eq!(rt;
            wrong_line(rt.alloc(), first, second, "")?,
            line,
            "{second}"
        );
    }
    let spoiled = "i64 V[3];\ni64 F[3];\nvoid step_0_0(void) {\nV[3LL]] = (V[0LL] + V[1LL]);\n";
    assert_eq!(rt; wrong_line(rt.alloc(), head, spoiled, LAST)?, 6);
    Ok(())
}
