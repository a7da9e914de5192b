//! Lines read from the front of a text.

ghost use Rattle.std.specs.Prelude.{◌≡◌, ℤ, List, Some, None, IfOk, option_map, codes};
ghost use Rattle.aol_csyn.specs.Stored.{expr_of};
ghost use Rattle.aol_cread.specs.Bytes.{Yields, after, before, between, found, mapped, read_expr, read_number};
ghost use Rattle.aol_cread.specs.Lines.{call_line, f_line, for_of, if_line, put_f_line, put_v_line, read_for, read_further, read_line, read_numbers, read_outer, read_round, read_small, read_table, set_line, step_line, table_from, v_line, var_line};
ghost use Rattle.aol_cread.specs.Parts.{read_pair, read_set};
ghost use Rattle.aol_cread.specs.Stored.{line_of};

use crate::bytes::Reader;
use crate::line::CLine;
use aol_csyn::CExpr;
use aol_shape::{Items, NoMemory};
use std::alloc::Global;

impl<'t> Reader<'t> {
    /// A number of 32 bits, and then these bytes.
    fn small_then(&mut self, end: &[u8]) -> Option<u32>
        ensures { Yields (before read_small end.now self.old.left.now) result self.new.left.now }
    {
        let n = self.small()?;
        if self.eat(end) { Some(n) } else { None }
    }

    /// Two numbers of 32 bits with `_` between them, and then these bytes.
    fn two_small_then(&mut self, end: &[u8]) -> Option<(u32, u32)>
        ensures { Yields (between read_small (codes "_") (before read_small end.now) self.old.left.now) result self.new.left.now }
    {
        let first = self.small()?;
        if !self.eat(b"_") {
            return None;
        }
        let second = self.small_then(end)?;
        Some((first, second))
    }

    /// An expression, and then these bytes.
    fn expr_then(&mut self, alloc: Global, room: u32, end: &[u8]) -> Result<Option<CExpr>, NoMemory>
        ensures { IfOk result (λ e. Yields (before (read_expr room) end.now self.old.left.now) (option_map expr_of e) self.new.left.now) }
    {
        let Some(e) = self.expr(alloc, room)? else {
            return Ok(None);
        };
        if self.eat(end) { Ok(Some(e)) } else { Ok(None) }
    }

    /// A variable that takes a value, after `a`.
    fn set_line(&mut self, alloc: Global, room: u32) -> Result<Option<CLine>, NoMemory>
        ensures { IfOk result (λ l. Yields (read_set room self.old.left.now) (option_map line_of l) self.new.left.now) }
    {
        let Some(k) = self.small() else {
            return Ok(None);
        };
        if !self.eat(b" = ") {
            return Ok(None);
        }
        match self.expr_then(alloc, room, b";\n")? {
            Some(e) => Ok(Some(CLine::Set(k, e))),
            None => Ok(None),
        }
    }

    /// An entry of V that takes a value, after `V[`.
    fn put_v_line(&mut self, alloc: Global, room: u32) -> Result<Option<CLine>, NoMemory>
        ensures { IfOk result (λ l. Yields (mapped (λ (at, e). put_v_line at e) (read_pair room) self.old.left.now) (option_map line_of l) self.new.left.now) }
    {
        let Some(at) = self.expr(alloc, room)? else {
            return Ok(None);
        };
        if !self.eat(b"] = ") {
            return Ok(None);
        }
        match self.expr_then(alloc, room, b";\n")? {
            Some(e) => Ok(Some(CLine::PutV(at, e))),
            None => Ok(None),
        }
    }

    /// An entry of F that takes a value, after `F[`.
    fn put_f_line(&mut self, alloc: Global, room: u32) -> Result<Option<CLine>, NoMemory>
        ensures { IfOk result (λ l. Yields (mapped (λ (at, e). put_f_line at e) (read_pair room) self.old.left.now) (option_map line_of l) self.new.left.now) }
    {
        let Some(at) = self.expr(alloc, room)? else {
            return Ok(None);
        };
        if !self.eat(b"] = ") {
            return Ok(None);
        }
        match self.expr_then(alloc, room, b";\n")? {
            Some(e) => Ok(Some(CLine::PutF(at, e))),
            None => Ok(None),
        }
    }

    /// These bytes, and then a number of 32 bits.
    fn small_after(&mut self, front: &[u8]) -> Option<u32>
        ensures { Yields (after front.now read_small self.old.left.now) result self.new.left.now }
    {
        if self.eat(front) { self.small() } else { None }
    }

    /// These bytes, and then a number.
    fn number_after(&mut self, front: &[u8]) -> Option<i64>
        ensures { Yields (after front.now read_number self.old.left.now) result self.new.left.now }
    {
        if self.eat(front) { self.number() } else { None }
    }

    /// The first line of a `for`, after `for (a`. It names its variable four times.
    fn for_line(&mut self) -> Option<CLine>
        ensures { Yields (read_for self.old.left.now) (option_map line_of result) self.new.left.now }
    {
        let k = self.small()?;
        let a = self.number_after(b" = ")?;
        let second = self.small_after(b"; a")?;
        let b = self.number_after(b" < ")?;
        let third = self.small_after(b"; a")?;
        let fourth = self.small_after(b" = a")?;
        if !self.eat(b" + 1LL) {\n") {
            return None;
        }
        if k == second && k == third && k == fourth {
            Some(CLine::For(k, a, b))
        } else {
            None
        }
    }

    /// So many numbers with commas between them, at least one.
    #[tactic(auto, unfolding(crate::specs::Lines::read_numbers))]
    fn numbers(&mut self, alloc: Global, count: u32) -> Result<Option<Items<i64>>, NoMemory>
        ensures { IfOk result (λ ns. Yields (read_numbers count self.old.left.now) ns self.new.left.now) }
    {
        if count == 0 {
            return Ok(None);
        }
        let mut numbers = Items::new(alloc);
        let Some(first) = self.number() else {
            return Ok(None);
        };
        numbers.push(first)?;
        for _k in 1..count {
            let Some(number) = self.number_after(b",") else {
                return Ok(None);
            };
            numbers.push(number)?;
        }
        Ok(Some(numbers))
    }

    /// A table's line, after `static const i64 T`.
    fn table_line(&mut self, alloc: Global) -> Result<Option<CLine>, NoMemory>
        ensures { IfOk result (λ l. Yields (read_table self.old.left.now) (option_map line_of l) self.new.left.now) }
    {
        let Some(t) = self.small() else {
            return Ok(None);
        };
        if !self.eat(b"[") {
            return Ok(None);
        }
        let Some(count) = self.small_then(b"] = {") else {
            return Ok(None);
        };
        let Some(numbers) = self.numbers(alloc, count)? else {
            return Ok(None);
        };
        if self.eat(b"};\n") {
            Ok(Some(CLine::Table(t, numbers)))
        } else {
            Ok(None)
        }
    }

    /// A line before the steps, or the first line of `run`.
    fn outer_line(&mut self, alloc: Global) -> Result<Option<CLine>, NoMemory>
        ensures { IfOk result (λ l. Yields (read_outer self.old.left.now) (option_map line_of l) self.new.left.now) }
    {
        if self.eat(b"static const i64 T") {
            return self.table_line(alloc);
        }
        if self.eat(b"i64 V[") {
            return Ok(match self.small_then(b"];\n") {
                Some(cells) => Some(CLine::V(cells)),
                None => None,
            });
        }
        if self.eat(b"i64 F[") {
            return Ok(match self.small_then(b"];\n") {
                Some(cells) => Some(CLine::F(cells)),
                None => None,
            });
        }
        if self.eat(b"/* AOL-C/1 */\n") {
            return Ok(Some(CLine::Head));
        }
        if self.eat(b"typedef long long i64;\n") {
            return Ok(Some(CLine::TypeName));
        }
        if self.eat(b"void run(void) {\n") {
            Ok(Some(CLine::Run))
        } else {
            Ok(None)
        }
    }

    /// A line round statements, or one before the steps.
    fn round_line(&mut self, alloc: Global) -> Result<Option<CLine>, NoMemory>
        ensures { IfOk result (λ l. Yields (read_round self.old.left.now) (option_map line_of l) self.new.left.now) }
    {
        if self.eat(b"}\n") {
            return Ok(Some(CLine::Close));
        }
        if self.eat(b"} else {\n") {
            return Ok(Some(CLine::Else));
        }
        if self.eat(b"i64 a") {
            return Ok(match self.small_then(b" = 0LL;\n") {
                Some(k) => Some(CLine::Var(k)),
                None => None,
            });
        }
        if self.eat(b"void step_") {
            return Ok(match self.two_small_then(b"(void) {\n") {
                Some((level, worker)) => Some(CLine::Step(level, worker)),
                None => None,
            });
        }
        if self.eat(b"step_") {
            return Ok(match self.two_small_then(b"();\n") {
                Some((level, worker)) => Some(CLine::Call(level, worker)),
                None => None,
            });
        }
        self.outer_line(alloc)
    }

    /// One line, with expressions of at most so many levels.
    #[tactic(auto, unfolding(crate::specs::Lines::read_line))]
    pub(crate) fn line(&mut self, alloc: Global, room: u32) -> Result<Option<CLine>, NoMemory>
        ensures { IfOk result (λ l. Yields (read_line room self.old.left.now) (option_map line_of l) self.new.left.now) }
    {
        if self.eat(b"a") {
            return self.set_line(alloc, room);
        }
        if self.eat(b"V[") {
            return self.put_v_line(alloc, room);
        }
        if self.eat(b"F[") {
            return self.put_f_line(alloc, room);
        }
        if self.eat(b"if (") {
            return match self.expr_then(alloc, room, b") {\n")? {
                Some(e) => Ok(Some(CLine::If(e))),
                None => Ok(None),
            };
        }
        if self.eat(b"for (a") {
            return Ok(self.for_line());
        }
        self.round_line(alloc)
    }
}
