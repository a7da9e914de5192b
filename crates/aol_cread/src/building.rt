//! A program built line by line.

ghost use Rattle.std.specs.Prelude.{◌≡◌, ◌+◌, ◌<◌, ◌^◌, IfOk, length, OnOk, ◌++◌, ◌∷◌, [], Some, ◌&&◌};
ghost use Rattle.aol_shape.specs.Numbers.{fits_64};
ghost use Rattle.aol_csyn.specs.Form.{expr_formed};
ghost use Rattle.aol_csyn.specs.Stored.{expr_of, stmt_of};
ghost use Rattle.aol_cread.specs.States.{is_held};
ghost use Rattle.aol_cread.specs.Next.{Leads, next, nothing_read, advanced, opened, fits_here, after_start, after_headed, after_celled, after_tables, after_between, after_inside, after_running, closed, turned, with_stmt, with_frame, has_room, is_empty};
ghost use Rattle.aol_cread.specs.Stored.{frames_of, frame_of, line_of, state_of, trees_of};
ghost use Rattle.aol_cread.specs.Lines.{step_line, table_line, v_line, for_line, set_line, var_line, call_line, close_line, else_line, run_line, if_line, put_v_line, put_f_line};

use crate::line::CLine;
use aol_csyn::{CExpr, CStep, CStmt, Table};
use aol_shape::{Items, NoMemory};
use std::alloc::Global;
use std::mem;

/// What comes next.
#[derive(Clone, Copy, Debug, PartialEq, Eq)]
pub(crate) enum Phase {
    Start,
    Headed,
    Tables,
    Celled,
    Between,
    Inside,
    Running,
    Ended,
}

/// A block that is open, with the statements before it.
#[derive(Drop)]
pub(crate) enum Block {
    ForBody(u32, i64, i64, Items<CStmt>),
    FirstBody(CExpr, Items<CStmt>),
    /// The first body comes before the statements before the `if`.
    SecondBody(CExpr, Items<CStmt>, Items<CStmt>),
}

/// What is known after some lines. `workers` is 0 before level 0 has ended.
#[derive(Drop)]
pub(crate) struct Building {
    pub(crate) phase: Phase,
    pub(crate) tables: Items<Table>,
    pub(crate) cells: u32,
    pub(crate) steps: Items<CStep>,
    pub(crate) level: u32,
    pub(crate) worker: u32,
    pub(crate) workers: u32,
    pub(crate) levels: u32,
    pub(crate) vars: u32,
    /// The innermost open block comes last.
    pub(crate) blocks: Items<Block>,
    /// The statements of the innermost block so far.
    pub(crate) here: Items<CStmt>,
}

/// True, as any number of the code has 64 bits.
fn has_64_bits(_number: i64) -> bool
    ensures { result ≡ fits_64 _number }
{
    true
}

/// Whether an expression names only variables and tables that are there.
fn is_formed(vars: u32, tables: usize, e: &CExpr) -> bool
    ensures { result ≡ expr_formed vars tables (expr_of e.now) }
{
    match e {
        CExpr::Num(number) => has_64_bits(*number),
        CExpr::Var(k) => *k < vars,
        CExpr::Tab(t, index) => (*t as usize) < tables && is_formed(vars, tables, index),
        CExpr::V(index) => is_formed(vars, tables, index),
        CExpr::F(index) => is_formed(vars, tables, index),
        CExpr::Bin(_, left, right) => {
            is_formed(vars, tables, left) && is_formed(vars, tables, right)
        }
    }
}

/// Whether nothing inside the block may set the variable.
fn holds(k: u32, block: &Block) -> bool
    ensures { result ≡ is_held k (frame_of block.now ∷ []) }
{
    match block {
        Block::ForBody(j, _, _, _) => *j == k,
        Block::FirstBody(_, _) => false,
        Block::SecondBody(_, _, _) => false,
    }
}

/// Whether nothing inside the open blocks may set the variable.
fn is_held(k: u32, blocks: &[Block]) -> bool
    ensures { result ≡ is_held k (frames_of blocks.now) }
{
    let mut held = false;
    for block in blocks {
        held = holds(k, block) || held;
    }
    held
}

/// Before the first line.
pub(crate) fn nothing_read(alloc: Global) -> Building
    ensures { state_of result ≡ nothing_read }
{
    Building {
        phase: Phase::Start,
        tables: Items::new(alloc),
        cells: 0,
        steps: Items::new(alloc),
        level: 0,
        worker: 0,
        workers: 0,
        levels: 0,
        vars: 0,
        blocks: Items::new(alloc),
        here: Items::new(alloc),
    }
}

impl Building {
    /// The next step is that of the worker after, or of the first worker in the level after.
    fn advance(&mut self)
        requires level { self.old.level + 1 < 2 ^ 32 }
        requires worker { self.old.worker + 1 < 2 ^ 32 }
        ensures { state_of self.new ≡ advanced (state_of self.old) }
    {
        if self.worker + 1 == self.workers {
            self.level += 1;
            self.worker = 0;
        } else {
            self.worker += 1;
        }
    }

    /// On with a line before the arrays.
    fn after_tables(&mut self, line: CLine) -> Result<bool, NoMemory>
        ensures { IfOk result (λ went. Leads (after_tables (state_of self.old) (line_of line)) went (state_of self.new)) }
    {
        match line {
            CLine::Table(t, nums) => {
                if t as usize != self.tables.len() || t == u32::MAX {
                    return Ok(false);
                }
                self.tables.push(Table { nums })?;
                Ok(true)
            }
            CLine::V(cells) => {
                self.phase = Phase::Celled;
                self.cells = cells;
                Ok(cells != 0)
            }
            _ => Ok(false),
        }
    }

    /// Begins a step.
    fn open(&mut self, alloc: Global)
        ensures { state_of self.new ≡ opened (state_of self.old) }
    {
        self.phase = Phase::Inside;
        self.vars = 0;
        self.blocks = Items::new(alloc);
        self.here = Items::new(alloc);
    }

    /// On with the first line of a step.
    fn begin_step(&mut self, alloc: Global, level: u32, worker: u32) -> bool
        ensures { Leads (after_between (state_of self.old) (step_line level worker)) result (state_of self.new) }
    {
        if level == self.level && worker == self.worker {
            self.open(alloc);
            return self.has_room();
        }
        if level != 1 || worker != 0 || self.workers != 0 || self.worker == 0 {
            return false;
        }
        self.workers = self.worker;
        self.level = 1;
        self.worker = 0;
        self.open(alloc);
        true
    }

    /// On with the first line of `run`.
    fn begin_run(&mut self) -> bool
        ensures { Leads (after_between (state_of self.old) run_line) result (state_of self.new) }
    {
        let fits = if self.workers == 0 {
            self.workers = self.worker;
            self.levels = 1;
            self.worker != 0
        } else {
            self.levels = self.level;
            self.worker == 0
        };
        self.phase = Phase::Running;
        self.level = 0;
        self.worker = 0;
        fits
    }

    /// Whether there may be one more level, and one more worker.
    fn has_room(&self) -> bool
        ensures { result ≡ has_room (state_of self.now) }
    {
        self.level < u32::MAX && self.worker < u32::MAX
    }

    /// Whether no statement of the step has begun.
    fn is_first(&self) -> bool
        ensures { result ≡ (is_empty (frames_of self.now.blocks) && is_empty (trees_of self.now.here)) }
    {
        self.blocks.len() == 0 && self.here.len() == 0
    }

    /// On with the line of a variable.
    fn add_var(&mut self, k: u32) -> bool
        ensures { Leads (after_inside (state_of self.old) (var_line k)) result (state_of self.new) }
    {
        if k != self.vars || !self.is_first() || self.vars == u32::MAX {
            return false;
        }
        self.vars += 1;
        true
    }

    /// One more statement.
    fn add(&mut self, stmt: CStmt) -> Result<(), NoMemory>
        ensures { OnOk result (state_of self.new ≡ with_stmt (state_of self.old) (stmt_of stmt)) }
    {
        self.here.push(stmt)?;
        Ok(())
    }

    /// Whether an expression names only variables and tables that are there.
    fn fits(&self, e: &CExpr) -> bool
        ensures { result ≡ fits_here (state_of self.now) (expr_of e.now) }
    {
        is_formed(self.vars, self.tables.len(), e)
    }

    /// On with a variable that takes a value.
    fn set(&mut self, k: u32, e: CExpr) -> Result<bool, NoMemory>
        ensures { IfOk result (λ went. Leads (after_inside (state_of self.old) (set_line k (expr_of e))) went (state_of self.new)) }
    {
        if k >= self.vars || !self.fits(&e) || is_held(k, self.blocks.as_slice()) {
            return Ok(false);
        }
        self.add(CStmt::Set(k, e))?;
        Ok(true)
    }

    /// Begins a block.
    fn begin_if(&mut self, alloc: Global, e: CExpr) -> Result<bool, NoMemory>
        ensures { IfOk result (λ went. Leads (after_inside (state_of self.old) (if_line (expr_of e))) went (state_of self.new)) }
    {
        if !self.fits(&e) {
            return Ok(false);
        }
        let before = mem::replace(&mut self.here, Items::new(alloc));
        self.blocks.push(Block::FirstBody(e, before))?;
        Ok(true)
    }

    /// Begins the body of a `for`.
    fn begin_for(&mut self, alloc: Global, k: u32, a: i64, b: i64) -> Result<bool, NoMemory>
        ensures { IfOk result (λ went. Leads (after_inside (state_of self.old) (for_line k a b)) went (state_of self.new)) }
    {
        let held = is_held(k, self.blocks.as_slice());
        if k >= self.vars || a > b || held || self.blocks.len() >= 1024 {
            return Ok(false);
        }
        let before = mem::replace(&mut self.here, Items::new(alloc));
        self.blocks.push(Block::ForBody(k, a, b, before))?;
        Ok(true)
    }

    /// Begins the second body of an `if`.
    fn turn(&mut self, alloc: Global) -> Result<bool, NoMemory>
        ensures { IfOk result (λ went. Leads (turned (state_of self.old) (frames_of self.old.blocks)) went (state_of self.new)) }
    {
        match self.blocks.pop() {
            Some(Block::FirstBody(e, before)) => {
                let first = mem::replace(&mut self.here, Items::new(alloc));
                self.blocks.push(Block::SecondBody(e, first, before))?;
                Ok(true)
            }
            Some(other) => {
                drop(other);
                Ok(false)
            }
            None => Ok(false),
        }
    }

    /// Ends the step.
    fn end_step(&mut self, alloc: Global) -> Result<bool, NoMemory>
        ensures { IfOk result (λ went. Leads (closed (state_of self.old) []) went (state_of self.new)) }
    {
        if !self.has_room() {
            return Ok(false);
        }
        let body = mem::replace(&mut self.here, Items::new(alloc));
        self.steps.push(CStep {
            vars: self.vars,
            body,
        })?;
        self.phase = Phase::Between;
        self.advance();
        Ok(true)
    }

    /// Ends a block, or the step where none is open.
    fn close(&mut self, alloc: Global) -> Result<bool, NoMemory>
        ensures { IfOk result (λ went. Leads (closed (state_of self.old) (frames_of self.old.blocks)) went (state_of self.new)) }
    {
        match self.blocks.pop() {
            None => self.end_step(alloc),
            Some(Block::ForBody(k, a, b, before)) => {
                let body = mem::replace(&mut self.here, before);
                self.add(CStmt::For(k, a, b, body))?;
                Ok(true)
            }
            Some(Block::SecondBody(e, first, before)) => {
                let second = mem::replace(&mut self.here, before);
                self.add(CStmt::If(e, first, second))?;
                Ok(true)
            }
            Some(other) => {
                drop(other);
                Ok(false)
            }
        }
    }

    /// On with two expressions that fit, in a statement made of them.
    fn put_v(&mut self, at: CExpr, e: CExpr) -> Result<bool, NoMemory>
        ensures { IfOk result (λ went. Leads (after_inside (state_of self.old) (put_v_line (expr_of at) (expr_of e))) went (state_of self.new)) }
    {
        if !self.fits(&at) || !self.fits(&e) {
            return Ok(false);
        }
        self.add(CStmt::PutV(at, e))?;
        Ok(true)
    }

    /// On with an entry of F that takes a value.
    fn put_f(&mut self, at: CExpr, e: CExpr) -> Result<bool, NoMemory>
        ensures { IfOk result (λ went. Leads (after_inside (state_of self.old) (put_f_line (expr_of at) (expr_of e))) went (state_of self.new)) }
    {
        if !self.fits(&at) || !self.fits(&e) {
            return Ok(false);
        }
        self.add(CStmt::PutF(at, e))?;
        Ok(true)
    }

    /// On with a line inside a step.
    fn after_inside(&mut self, alloc: Global, line: CLine) -> Result<bool, NoMemory>
        ensures { IfOk result (λ went. Leads (after_inside (state_of self.old) (line_of line)) went (state_of self.new)) }
    {
        match line {
            CLine::Var(k) => Ok(self.add_var(k)),
            CLine::Set(k, e) => self.set(k, e),
            CLine::PutV(at, e) => self.put_v(at, e),
            CLine::PutF(at, e) => self.put_f(at, e),
            CLine::If(e) => self.begin_if(alloc, e),
            CLine::For(k, a, b) => self.begin_for(alloc, k, a, b),
            CLine::Else => self.turn(alloc),
            CLine::Close => self.close(alloc),
            _ => Ok(false),
        }
    }

    /// On with a line of `run`.
    fn after_running(&mut self, line: CLine) -> bool
        ensures { Leads (after_running (state_of self.old) (line_of line)) result (state_of self.new) }
    {
        match line {
            CLine::Call(level, worker) => {
                let here = level == self.level && worker == self.worker;
                if !here || self.level >= self.levels || !self.has_room() {
                    return false;
                }
                self.advance();
                true
            }
            CLine::Close => {
                self.phase = Phase::Ended;
                self.level == self.levels
            }
            _ => false,
        }
    }

    /// On with a line between steps.
    fn after_between(&mut self, alloc: Global, line: CLine) -> bool
        ensures { Leads (after_between (state_of self.old) (line_of line)) result (state_of self.new) }
    {
        match line {
            CLine::Step(level, worker) => self.begin_step(alloc, level, worker),
            CLine::Run => self.begin_run(),
            _ => false,
        }
    }

    /// On with the first line.
    fn after_start(&mut self, line: CLine) -> bool
        ensures { Leads (after_start (state_of self.old) (line_of line)) result (state_of self.new) }
    {
        self.phase = Phase::Headed;
        matches!(line, CLine::Head)
    }

    /// On with the second line.
    fn after_headed(&mut self, line: CLine) -> bool
        ensures { Leads (after_headed (state_of self.old) (line_of line)) result (state_of self.new) }
    {
        self.phase = Phase::Tables;
        matches!(line, CLine::TypeName)
    }

    /// On with the line of the second array.
    fn after_celled(&mut self, line: CLine) -> bool
        ensures { Leads (after_celled (state_of self.old) (line_of line)) result (state_of self.new) }
    {
        self.phase = Phase::Between;
        match line {
            CLine::F(cells) => cells == self.cells,
            _ => false,
        }
    }

    /// On with one more line, where a program goes on with it.
    #[tactic(auto, unfolding(crate::specs::Next::next))]
    pub(crate) fn next(&mut self, alloc: Global, line: CLine) -> Result<bool, NoMemory>
        ensures { IfOk result (λ went. Leads (next (state_of self.old) (line_of line)) went (state_of self.new)) }
    {
        match self.phase {
            Phase::Tables => self.after_tables(line),
            Phase::Between => Ok(self.after_between(alloc, line)),
            Phase::Inside => self.after_inside(alloc, line),
            Phase::Running => Ok(self.after_running(line)),
            Phase::Start => Ok(self.after_start(line)),
            Phase::Headed => Ok(self.after_headed(line)),
            Phase::Celled => Ok(self.after_celled(line)),
            Phase::Ended => {
                drop(line);
                Ok(false)
            }
        }
    }
}
