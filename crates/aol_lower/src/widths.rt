//! The tests of the widths of ports.

ghost use Rattle.std.specs.Prelude.{◌≡◌, ◌+◌, ◌<◌, ◌^◌, IfOk};
ghost use Rattle.aol_lower.specs.Contract.{TestWidths, TestsAreFormed};
ghost use Rattle.aol_lower.specs.Ports.{each_test, numbers_test, ports_test, width_test, within};
ghost use Rattle.aol_lower.specs.Stored.{trees_of};

use crate::comparison::{Side, at_most};
use crate::element::{Place, fetched};
use crate::operators::choose;
use crate::parts::{fail, push_guarded, single};
use crate::reads::Reads;
use aol_csyn::CStmt;
use aol_expr_tree::{Kind, Port, Width};
use aol_shape::{Items, NoMemory};
use std::alloc::Global;

/// Nothing where a variable holds a number from one bound to another, else the fault `Range`.
fn within(alloc: Global, low: i64, high: i64, d: u32) -> Result<Items<CStmt>, NoMemory>
    ensures { IfOk result (λ body. trees_of body ≡ within low high d) }
{
    let above = fail(alloc, Kind::Range)?;
    let upper = choose(
        alloc,
        at_most(Side::Variable(d), Side::Number(high)),
        Items::new(alloc),
        above,
    )?;
    let below = fail(alloc, Kind::Range)?;
    choose(
        alloc,
        at_most(Side::Number(low), Side::Variable(d)),
        upper,
        below,
    )
}

/// Nothing where a variable holds a number of the width, else the fault `Range`.
pub(crate) fn width_test(alloc: Global, width: Width, d: u32) -> Result<Items<CStmt>, NoMemory>
    ensures { IfOk result (λ body. trees_of body ≡ width_test width d) }
{
    match width {
        Width::Int16 => within(alloc, -32768, 32767, d),
        Width::Int32 => within(alloc, -2147483648, 2147483647, d),
        Width::Int64 => Ok(Items::new(alloc)),
    }
}

/// The test of so many numbers that are read from a place on.
fn each_test(
    alloc: Global,
    reads: Reads,
    width: Width,
    start: i64,
    size: u32,
    d: u32,
) -> Result<Items<CStmt>, NoMemory>
    requires { d + 1 < 2 ^ 32 }
    ensures { IfOk result (λ body. trees_of body ≡ each_test reads width start size d) }
{
    let place = Place {
        reads,
        start,
        rank: d + 1,
        target: d,
    };
    let mut read = fetched(alloc, place)?;
    let tested = width_test(alloc, width, d)?;
    push_guarded(alloc, &mut read, tested)?;
    let mut body = Items::new(alloc);
    push_guarded(alloc, &mut body, read)?;
    single(alloc, CStmt::For(d + 1, 0, i64::from(size), body))
}

/// The same, where 64 bits need no test.
fn numbers_test(
    alloc: Global,
    reads: Reads,
    width: Width,
    start: i64,
    size: u32,
    d: u32,
) -> Result<Items<CStmt>, NoMemory>
    requires { d + 1 < 2 ^ 32 }
    ensures { IfOk result (λ body. trees_of body ≡ numbers_test reads width start size d) }
{
    match width {
        Width::Int16 | Width::Int32 => each_test(alloc, reads, width, start, size, d),
        Width::Int64 => Ok(Items::new(alloc)),
    }
}

/// The tests of all ports, whose numbers are read from a place on.
fn ports_test(
    alloc: Global,
    ins: &[Port],
    widths: &[Width],
    reads: Reads,
    start: i64,
    d: u32,
) -> Result<Items<CStmt>, NoMemory>
    requires { d + 1 < 2 ^ 32 }
    ensures { IfOk result (λ body. trees_of body ≡ ports_test reads ins.now widths.now start d) }
{
    match (ins.split_first(), widths.split_first()) {
        (Some((port, ports)), Some((width, others))) => {
            let size = port.shape.size();
            let mut body = numbers_test(alloc, reads, *width, start, size, d)?;
            let next = start.checked_add(i64::from(size)).ok_or(NoMemory)?;
            let rest = ports_test(alloc, ports, others, reads, next, d)?;
            body.append(rest)?;
            Ok(body)
        }
        _ => Ok(Items::new(alloc)),
    }
}

/// The statements that test the widths of input ports.
///
/// From each state without a fault in which the numbers of the ports can be read through `reads`, they are not stuck. They
/// leave the fault `Range` in variable 0 exactly where some port has a number that its width doesn't hold, and change no
/// other variable below `d`, and no array.
pub fn lower_widths(
    alloc: Global,
    ins: &[Port],
    widths: &[Width],
    reads: Reads,
    d: u32,
) -> Result<Items<CStmt>, NoMemory>
    requires space { d + 1 < 2 ^ 32 }
    requires above { 1 < d }
    ensures value { IfOk result (λ body. TestWidths reads ins.now widths.now d (trees_of body)) }
    ensures formed { IfOk result (λ body. TestsAreFormed reads ins.now d (trees_of body)) }
{
    ports_test(alloc, ins, widths, reads, 0, d)
}
