use aol_expr::{Expr, Kind, Port, Width, eval, names_ok, read_expr, work, write_expr};
use aol_shape::{Items, Name, Shape};
use std::alloc::Global;
use std::test::Fail;

/// A port with so many elements.
fn port(alloc: Global, name: &str, size: u32) -> Result<Port, Fail> {
    let shape = Shape::new(alloc, &[size]).ok_or("a shape")?;
    let name = Name::from_str(alloc, name)?;
    Ok(Port { name, shape })
}

/// A port `a` of shape {3}, and a port `b` of shape {2}.
fn ports(alloc: Global) -> Result<Items<Port>, Fail> {
    let mut ins = Items::new(alloc);
    ins.push(port(alloc, "a", 3)?)?;
    ins.push(port(alloc, "b", 2)?)?;
    Ok(ins)
}

fn read(alloc: Global, text: &str) -> Result<Expr, Fail> {
    if text.len() > 100 {
        return Err("too long".into());
    }
    Ok(read_expr(alloc, text).ok().ok_or("refused")?)
}

/// The value at point {7}, where `a` has 10, 20, 30 and `b` has 40, 50.
fn value(alloc: Global, text: &str) -> Result<Result<i64, Kind>, Fail> {
    let e = read(alloc, text)?;
    let ins = ports(alloc)?;
    if names_ok(&e, &ins, 1) {
        Ok(eval(&e, &ins, &[10, 20, 30, 40, 50], &[7]))
    } else {
        Err("a name that isn't there".into())
    }
}

#[test]
fn expressions_have_values(rt: HostRuntime) -> Result<(), Fail> {
    for (text, want) in [
        ("7/-2", Ok(-3)),
        ("-7%2", Ok(-1)),
        ("1/0", Err(Kind::Divide)),
        ("if(0,1/0,5)", Ok(5)),
        ("-9223372036854775808%-1", Err(Kind::Overflow)),
        ("b{1}", Ok(50)),
        ("a{3}", Err(Kind::Index)),
        ("a{-1}", Err(Kind::Index)),
        ("$0", Ok(7)),
        ("sum(k,4,k*k)", Ok(14)),
        // k runs over 0 and 1 around, and over 0, 1 and 2 inside: (3 + 0) + (3 + 1)
        ("sum(k,2,sum(k,3,k)+k)", Ok(7)),
    ] {
        assert_eq!(rt; value(rt.alloc(), text)?, want, "{text}");
    }
    Ok(())
}

/// Whether the names of a text are there, at a point with so many indices.
fn are_named(alloc: Global, text: &str, rank: u32) -> Result<bool, Fail> {
    let e = read(alloc, text)?;
    let ins = ports(alloc)?;
    Ok(names_ok(&e, &ins, rank))
}

#[test]
fn names_are_there(rt: HostRuntime) -> Result<(), Fail> {
    for (text, rank, want) in [
        ("$0", 0, false),
        ("$0", 1, true),
        ("a{1}+b{0}", 0, true),
        ("c{1}", 0, false),
        ("a{}", 0, false),
        ("k", 0, false),
        ("sum(k,2,k)+k", 0, false),
    ] {
        assert_eq!(rt; are_named(rt.alloc(), text, rank)?, want, "{text}");
    }
    Ok(())
}

fn work_of(alloc: Global, text: &str) -> Result<u64, Fail> {
    Ok(work(&read(alloc, text)?))
}

fn copied(alloc: Global, text: &str) -> Result<Name, Fail> {
    let copy = read(alloc, text)?.copy(alloc)?;
    Ok(write_expr(alloc, &copy)?)
}

#[test]
fn expressions_are_measured_and_copied(rt: HostRuntime) -> Result<(), Fail> {
    assert_eq!(rt; work_of(rt.alloc(), "$0")?, 1);
    assert_eq!(rt; work_of(rt.alloc(), "sum(k,1048576,1)")?, 1048577);
    let text = "if(a{$0}<2,min(k,-3),sum(k,9,b{k}))";
    assert_eq!(rt; copied(rt.alloc(), text)?.as_str(), text);
    Ok(())
}

#[test]
fn widths_hold_their_numbers(rt: HostRuntime) {
    for (width, n, want) in [
        (Width::Int16, 32767, true),
        (Width::Int16, 32768, false),
        (Width::Int16, -32768, true),
        (Width::Int16, -32769, false),
        (Width::Int32, 2147483647, true),
        (Width::Int32, 2147483648, false),
        (Width::Int64, i64::MIN, true),
    ] {
        assert_eq!(rt; width.holds(n), want);
    }
}
