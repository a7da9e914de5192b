//! Expressions read from the front of a text.

ghost use Rattle.std.specs.Prelude.{◌≡◌, ◌+◌, ◌≤◌, ◌<◌, ◌^◌, Some, None, IfOk, option_map, codes};
ghost use Rattle.aol_csyn.specs.Stored.{expr_of};
ghost use Rattle.aol_cread.specs.Bytes.{Yields, before, read_bin, read_deeper, read_entry, read_expr};

use crate::bytes::Reader;
use aol_csyn::CExpr;
use aol_shape::NoMemory;
use std::alloc::Global;

/// The expression on the heap.
fn boxed(alloc: Global, e: CExpr) -> Result<Box<CExpr>, NoMemory>
    ensures { IfOk result (λ b. b.value ≡ e) }
{
    Box::new(alloc, e).map_err(|_| NoMemory)
}

impl<'t> Reader<'t> {
    /// An expression of at most so many levels.
    #[cycle(expression)]
    #[tactic(auto, unfolding(crate::specs::Bytes::read_expr))]
    pub(crate) fn expr(&mut self, alloc: Global, room: u32) -> Result<Option<CExpr>, NoMemory>
        ensures { IfOk result (λ e. Yields (read_expr room self.old.left.now) (option_map expr_of e) self.new.left.now) }
    {
        if room == 0 {
            return Ok(None);
        }
        self.deeper(alloc, room - 1)
    }

    /// An expression, with expressions of at most so many levels inside it.
    #[cycle(expression)]
    fn deeper(&mut self, alloc: Global, room: u32) -> Result<Option<CExpr>, NoMemory>
        ensures { IfOk result (λ e. Yields (read_deeper (read_expr room) self.old.left.now) (option_map expr_of e) self.new.left.now) }
    {
        if self.eat(b"a") {
            return Ok(match self.small() {
                Some(k) => Some(CExpr::Var(k)),
                None => None,
            });
        }
        if self.eat(b"V[") {
            return match self.closed(alloc, room)? {
                Some(index) => Ok(Some(CExpr::V(boxed(alloc, index)?))),
                None => Ok(None),
            };
        }
        if self.eat(b"F[") {
            return match self.closed(alloc, room)? {
                Some(index) => Ok(Some(CExpr::F(boxed(alloc, index)?))),
                None => Ok(None),
            };
        }
        if self.eat(b"T") {
            return self.entry(alloc, room);
        }
        if self.eat(b"(-") {
            return Ok(match self.negative() {
                Some(number) => Some(CExpr::Num(number)),
                None => None,
            });
        }
        if self.eat(b"(") {
            return self.bin(alloc, room);
        }
        Ok(match self.positive() {
            Some(number) => Some(CExpr::Num(number)),
            None => None,
        })
    }

    /// An expression and the bracket after it.
    #[cycle(expression)]
    fn closed(&mut self, alloc: Global, room: u32) -> Result<Option<CExpr>, NoMemory>
        ensures { IfOk result (λ e. Yields (before (read_expr room) (codes "]") self.old.left.now) (option_map expr_of e) self.new.left.now) }
    {
        let Some(index) = self.expr(alloc, room)? else {
            return Ok(None);
        };
        if self.eat(b"]") {
            Ok(Some(index))
        } else {
            Ok(None)
        }
    }

    /// An entry of a table, after `T`.
    #[cycle(expression)]
    fn entry(&mut self, alloc: Global, room: u32) -> Result<Option<CExpr>, NoMemory>
        ensures { IfOk result (λ e. Yields (read_entry (read_expr room) self.old.left.now) (option_map expr_of e) self.new.left.now) }
    {
        let Some(t) = self.small() else {
            return Ok(None);
        };
        if !self.eat(b"[") {
            return Ok(None);
        }
        match self.closed(alloc, room)? {
            Some(index) => Ok(Some(CExpr::Tab(t, boxed(alloc, index)?))),
            None => Ok(None),
        }
    }

    /// Two operands with an operator between them, after `(`.
    #[cycle(expression)]
    fn bin(&mut self, alloc: Global, room: u32) -> Result<Option<CExpr>, NoMemory>
        ensures { IfOk result (λ e. Yields (read_bin (read_expr room) self.old.left.now) (option_map expr_of e) self.new.left.now) }
    {
        let Some(left) = self.expr(alloc, room)? else {
            return Ok(None);
        };
        let Some(op) = self.op() else {
            return Ok(None);
        };
        let Some(right) = self.expr(alloc, room)? else {
            return Ok(None);
        };
        if !self.eat(b")") {
            return Ok(None);
        }
        Ok(Some(CExpr::Bin(op, boxed(alloc, left)?, boxed(alloc, right)?)))
    }
}
