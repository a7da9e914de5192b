use crate::programs::{CLOSE, FIRST, LAST, OPEN, read};
use aol_cexec::{ExecRefused, Order, c_work, exec_c};
use std::alloc::Global;
use std::test::Fail;

/// How a run ends, where its arrays are told by five numbers: the three of V and the first two of F.
type Ends = Result<[i64; 5], ExecRefused>;

/// How a run of the program with this text ends.
fn run(
    alloc: Global,
    texts: (&str, &str, &str),
    memory: &[i64],
    order: Order,
) -> Result<Ends, Fail> {
    let Ok(program) = read(alloc, texts.0, texts.1, texts.2)? else {
        return Err("no program".into());
    };
    if memory.len() > program.cells as usize {
        return Err("too long".into());
    }
    match exec_c(alloc, &program, memory, order) {
        Ok(arrays) => {
            let v = arrays.v.as_slice();
            let f = arrays.f.as_slice();
            if v.len() != 3 || f.len() != 3 {
                return Err("other cells".into());
            }
            Ok(Ok([v[0], v[1], v[2], f[0], f[1]]))
        }
        Err(why) => Ok(Err(why)),
    }
}

#[test]
fn runs_end(rt: HostRuntime) -> Result<(), Fail> {
    let alloc = rt.alloc();
    let whole = (FIRST, "", LAST);
    for order in [Order::Up, Order::Down] {
        assert_eq!(rt; run(alloc, whole, &[1, 2], order)?, Ok([1, 2, 3, 0, 0]));
        let stuck = ExecRefused::Stuck {
            level: 0,
            worker: 0,
        };
        assert_eq!(rt; run(alloc, whole, &[i64::MAX, 1], order)?, Err(stuck));
    }
    let twice = (FIRST, "V[2LL] = 9LL;\n", LAST);
    assert_eq!(rt; run(alloc, twice, &[1, 2], Order::Up)?, Ok([1, 2, 9, 0, 0]));
    assert_eq!(rt;
        run(alloc, twice, &[1, 2], Order::Down)?,
        Ok([1, 2, 3, 0, 0])
    );
    Ok(())
}

#[test]
fn statements_do_this(rt: HostRuntime) -> Result<(), Fail> {
    for (body, want) in [
        (
            "V[0LL] = T0[1LL];\nF[1LL] = T0[0LL];\n",
            Ok([-5, 0, 0, 0, 7]),
        ),
        (
            "for (a0 = 1LL; a0 < 4LL; a0 = a0 + 1LL) {\nV[0LL] = (V[0LL] + a0);\n}\nV[1LL] = a0;\n",
            Ok([6, 4, 0, 0, 0]),
        ),
        (
            "for (a0 = 5LL; a0 < 5LL; a0 = a0 + 1LL) {\nV[9LL] = 1LL;\n}\nV[1LL] = a0;\n",
            Ok([0, 5, 0, 0, 0]),
        ),
        (
            "if ((1LL < 1LL)) {\nV[0LL] = 1LL;\n} else {\nV[0LL] = 2LL;\n}\n",
            Ok([2, 0, 0, 0, 0]),
        ),
        (
            "V[0LL] = ((-7LL) / 2LL);\nV[1LL] = ((-7LL) % 2LL);\n",
            Ok([-3, -1, 0, 0, 0]),
        ),
        (
            "V[0LL] = (0LL * (1LL / 0LL));\n",
            Err(ExecRefused::Stuck {
                level: 0,
                worker: 0,
            }),
        ),
        (
            "V[0LL] = ((-9223372036854775807LL - 1LL) % (-1LL));\n",
            Err(ExecRefused::Stuck {
                level: 0,
                worker: 0,
            }),
        ),
        (
            "V[3LL] = 1LL;\n",
            Err(ExecRefused::Stuck {
                level: 0,
                worker: 0,
            }),
        ),
        (
            "V[0LL] = T0[(-1LL)];\n",
            Err(ExecRefused::Stuck {
                level: 0,
                worker: 0,
            }),
        ),
    ] {
        assert_eq!(rt;
            run(rt.alloc(), (OPEN, body, CLOSE), &[], Order::Up)?,
            want,
            "{body}"
        );
    }
    Ok(())
}

/// How much work the program with this text is.
fn work(alloc: Global, first: &str, second: &str, third: &str) -> Result<u64, Fail> {
    match read(alloc, first, second, third)? {
        Ok(program) => Ok(c_work(&program)),
        Err(_) => Err("no program".into()),
    }
}

#[test]
fn work_is_counted(rt: HostRuntime) -> Result<(), Fail> {
    let alloc = rt.alloc();
    assert_eq!(rt; work(alloc, FIRST, "", LAST)?, 7);
    let long = "i64 a0 = 0LL;\nfor (a0 = 0LL; a0 < 4294967296LL; a0 = a0 + 1LL) {\n}\n";
    assert_eq!(rt; work(alloc, FIRST, long, LAST)?, 4_294_967_304);
    let longest =
        "for (a0 = (-9223372036854775807LL - 1LL); a0 < 9223372036854775807LL; a0 = a0 + 1LL) {\na1 = 1LL;\n}\n";
    assert_eq!(rt; work(alloc, OPEN, longest, CLOSE)?, u64::MAX);
    assert_eq!(rt;
        work(
            alloc,
            OPEN,
            "if (a0) {\na1 = 1LL;\n} else {\nV[a0] = 1LL;\n}\n",
            CLOSE
        )?,
        7
    );
    Ok(())
}
