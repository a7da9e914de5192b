use aol_expr::{ExprRefused, read_expr, write_expr};
use aol_shape::{LimitName, Name};
use std::alloc::Global;
use std::test::Fail;

/// The canonical text of what a text spells.
fn rewritten(alloc: Global, text: &str) -> Result<Name, Fail> {
    if text.len() > 100_000 {
        return Err("too long".into());
    }
    let e = read_expr(alloc, text).ok().ok_or("refused")?;
    Ok(write_expr(alloc, &e)?)
}

/// Why a text isn't read.
fn refusal(alloc: Global, text: &str) -> Option<ExprRefused> {
    if text.len() > 100_000 {
        return None;
    }
    read_expr(alloc, text).err()
}

#[test]
fn texts_are_rewritten(rt: HostRuntime) -> Result<(), Fail> {
    for (text, want) in [
        ("(a{})+((b{}*c{}))", "a{}+b{}*c{}"),
        ("1--1", "1--1"),
        ("1-(2+3)", "1-(2+3)"),
        ("(1-2)-3", "1-2-3"),
        ("2*(3*4)", "2*(3*4)"),
        ("(1<2)<3", "(1<2)<3"),
        ("1 <= 2 + 3", "1<=2+3"),
        (
            " if ( $07 == -0 , min(1,002) , a { k,2 } ) ",
            "if($7==0,min(1,2),a{k,2})",
        ),
        ("sum(k,1048576,max(k,$1))", "sum(k,1048576,max(k,$1))"),
        ("-9223372036854775808", "-9223372036854775808"),
    ] {
        assert_eq!(rt; rewritten(rt.alloc(), text)?.as_str(), want);
    }
    Ok(())
}

#[test]
fn texts_are_refused(rt: HostRuntime) {
    for (text, want) in [
        ("", ExprRefused::At(0)),
        ("1<2<3", ExprRefused::At(3)),
        ("12345678901234567890", ExprRefused::At(19)),
        ("min+1", ExprRefused::At(3)),
        ("sum(min,2,1)", ExprRefused::At(7)),
        ("- 1", ExprRefused::At(1)),
        ("a b", ExprRefused::At(2)),
        ("1 2", ExprRefused::At(2)),
        (
            "9223372036854775808",
            ExprRefused::Limit(0, LimitName::Number),
        ),
        ("sum(k,1048577,1)", ExprRefused::Limit(6, LimitName::Sums)),
        ("sum(k,0,1)", ExprRefused::Limit(6, LimitName::Sums)),
        (
            "sum(a,1024,sum(b,1025,1))",
            ExprRefused::Limit(17, LimitName::Sums),
        ),
    ] {
        assert_eq!(rt; refusal(rt.alloc(), text), Some(want));
    }
}

/// A text, so many times with one between each two, in so many parentheses.
fn repeated(alloc: Global, text: &str, times: u32, pairs: u32) -> Result<String, Fail> {
    let mut whole = String::new(alloc);
    for _ in 0..pairs {
        whole.push('(')?;
    }
    whole.push_str(text)?;
    for _ in 1..times {
        whole.push('+')?;
        whole.push_str(text)?;
    }
    for _ in 0..pairs {
        whole.push(')')?;
    }
    Ok(whole)
}

#[test]
fn long_texts_are_limited(rt: HostRuntime) -> Result<(), Fail> {
    let depth = Some(ExprRefused::Limit(0, LimitName::Depth));
    let nodes = Some(ExprRefused::Limit(0, LimitName::Expression));
    for (times, pairs, want) in [
        (100, 0, None),
        (101, 0, depth),
        (5000, 0, depth),
        (5001, 0, nodes),
        (1, 100, None),
        (1, 101, Some(ExprRefused::At(100))),
    ] {
        let text = repeated(rt.alloc(), "1", times, pairs)?;
        assert_eq!(rt; refusal(rt.alloc(), text.as_str()), want);
    }
    Ok(())
}

#[test]
fn names_are_limited(rt: HostRuntime) -> Result<(), Fail> {
    for (letters, want) in [(64, None), (65, Some(ExprRefused::At(64)))] {
        let mut name = String::new(rt.alloc());
        for _ in 0..letters {
            name.push('x')?;
        }
        assert_eq!(rt; refusal(rt.alloc(), name.as_str()), want);
    }
    Ok(())
}
