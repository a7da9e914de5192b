//! The text of a program.

ghost use Rattle.std.specs.Prelude.{◌≡◌, ◌++◌, ◌+◌, ◌<◌, ◌^◌, ◌==◌, if◌then◌else◌, decimal, OnOk, OnErr, length, map};
ghost use Rattle.std.specs.Io.KnownBytes.{Appends};
ghost use Rattle.aol_io.specs.Causes.{HasCause};
ghost use Rattle.aol_io.specs.Streams.{TookPrefix};
ghost use Rattle.aol_csyn.specs.Form.{IsWellFormed};
ghost use Rattle.aol_csyn.specs.Stored.{program_of, expr_of, stmt_of, stmts_of, tables_of, step_of};
ghost use Rattle.aol_csyn.specs.Text.{op_text, program_text, number_text, indexed, expr_text, assigned, for_line, stmt_text, stmts_text, numbers_text, table_text, tables_text, arrays_text, step_name, call_text, var_line, vars_text, step_text, steps_text, calls_text};
ghost use Rattle.aol_csyn.specs.Tree.{tab, set_var, for_each};
ghost use Rattle.aol_csyn.specs.Writing.{Adds, progress};

use crate::program::{CExpr, COp, CProgram, CStep, CStmt, Table};
use aol_io::{Failed, Sink, write_all};
use itoa::Buffer;

/// Writes a text, unless a write has failed before.
fn put<K: Sink>(sink: &mut K, failed: &mut bool, text: &str)
    ensures { Adds (progress (K.taken sink.old) (K.faults sink.old) failed.old) (progress (K.taken sink.new) (K.faults sink.new) failed.new) text.now }
{
    if !*failed {
        *failed = write_all(sink, text.as_bytes()).is_err();
    }
}

/// Writes a text and then a number that has no sign.
fn put_count<K: Sink>(sink: &mut K, failed: &mut bool, front: &str, number: u64)
    ensures { Adds (progress (K.taken sink.old) (K.faults sink.old) failed.old) (progress (K.taken sink.new) (K.faults sink.new) failed.new) (front.now ++ decimal number) }
{
    let mut buffer = Buffer::new();
    put(sink, failed, front);
    put(sink, failed, buffer.format(number));
}

/// Writes a number as an expression has it.
fn put_number<K: Sink>(sink: &mut K, failed: &mut bool, number: i64)
    ensures { Adds (progress (K.taken sink.old) (K.faults sink.old) failed.old) (progress (K.taken sink.new) (K.faults sink.new) failed.new) (number_text number) }
{
    if number == i64::MIN {
        return put(sink, failed, "(-9223372036854775807LL - 1LL)");
    }
    let magnitude = number.unsigned_abs();
    if number < 0 {
        put_count(sink, failed, "(-", magnitude);
        put(sink, failed, "LL)");
    } else {
        put_count(sink, failed, "", magnitude);
        put(sink, failed, "LL");
    }
}

/// Writes a text and then a number as an expression has it.
fn put_number_after<K: Sink>(sink: &mut K, failed: &mut bool, front: &str, number: i64)
    ensures { Adds (progress (K.taken sink.old) (K.faults sink.old) failed.old) (progress (K.taken sink.new) (K.faults sink.new) failed.new) (front.now ++ number_text number) }
{
    put(sink, failed, front);
    put_number(sink, failed, number);
}

/// Writes an expression, of no more levels than the limit of programs.
#[cycle(expression)]
fn put_expr<K: Sink>(sink: &mut K, failed: &mut bool, e: &CExpr)
    ensures { Adds (progress (K.taken sink.old) (K.faults sink.old) failed.old) (progress (K.taken sink.new) (K.faults sink.new) failed.new) (expr_text (expr_of e.now)) }
{
    match e {
        CExpr::Num(number) => put_number(sink, failed, *number),
        CExpr::Var(k) => put_count(sink, failed, "a", *k as u64),
        CExpr::Tab(t, index) => put_tab(sink, failed, *t, index),
        CExpr::V(index) => put_cell(sink, failed, "V", index),
        CExpr::F(index) => put_cell(sink, failed, "F", index),
        CExpr::Bin(op, left, right) => {
            put(sink, failed, "(");
            put_expr(sink, failed, left);
            put(sink, failed, op_text(*op));
            put_expr(sink, failed, right);
            put(sink, failed, ")");
        }
    }
}

/// Writes an entry of a table.
#[cycle(expression)]
fn put_tab<K: Sink>(sink: &mut K, failed: &mut bool, t: u32, index: &CExpr)
    ensures { Adds (progress (K.taken sink.old) (K.faults sink.old) failed.old) (progress (K.taken sink.new) (K.faults sink.new) failed.new) (expr_text (tab t (expr_of index.now))) }
{
    put_count(sink, failed, "T", t as u64);
    put_index(sink, failed, index);
}

/// Writes an entry of an array.
#[cycle(expression)]
fn put_cell<K: Sink>(sink: &mut K, failed: &mut bool, array: &str, index: &CExpr)
    ensures { Adds (progress (K.taken sink.old) (K.faults sink.old) failed.old) (progress (K.taken sink.new) (K.faults sink.new) failed.new) (array.now ++ indexed (expr_text (expr_of index.now))) }
{
    put(sink, failed, array);
    put_index(sink, failed, index);
}

/// Writes an index in brackets.
#[cycle(expression)]
fn put_index<K: Sink>(sink: &mut K, failed: &mut bool, index: &CExpr)
    ensures { Adds (progress (K.taken sink.old) (K.faults sink.old) failed.old) (progress (K.taken sink.new) (K.faults sink.new) failed.new) (indexed (expr_text (expr_of index.now))) }
{
    put(sink, failed, "[");
    put_expr(sink, failed, index);
    put(sink, failed, "]");
}

/// Writes the value that something takes.
fn put_assigned<K: Sink>(sink: &mut K, failed: &mut bool, e: &CExpr)
    ensures { Adds (progress (K.taken sink.old) (K.faults sink.old) failed.old) (progress (K.taken sink.new) (K.faults sink.new) failed.new) (assigned (expr_of e.now)) }
{
    put(sink, failed, " = ");
    put_expr(sink, failed, e);
    put(sink, failed, ";\n");
}

/// Writes a variable that takes a value.
fn put_set<K: Sink>(sink: &mut K, failed: &mut bool, k: u32, e: &CExpr)
    ensures { Adds (progress (K.taken sink.old) (K.faults sink.old) failed.old) (progress (K.taken sink.new) (K.faults sink.new) failed.new) (stmt_text (set_var k (expr_of e.now))) }
{
    put_count(sink, failed, "a", k as u64);
    put_assigned(sink, failed, e);
}

/// Writes an entry of an array that takes a value.
fn put_entry<K: Sink>(sink: &mut K, failed: &mut bool, array: &str, at: &CExpr, e: &CExpr)
    ensures { Adds (progress (K.taken sink.old) (K.faults sink.old) failed.old) (progress (K.taken sink.new) (K.faults sink.new) failed.new) ((array.now ++ indexed (expr_text (expr_of at.now))) ++ assigned (expr_of e.now)) }
{
    put_cell(sink, failed, array, at);
    put_assigned(sink, failed, e);
}

/// Writes the first line of a `for`.
fn put_for_line<K: Sink>(sink: &mut K, failed: &mut bool, k: u32, a: i64, b: i64)
    ensures { Adds (progress (K.taken sink.old) (K.faults sink.old) failed.old) (progress (K.taken sink.new) (K.faults sink.new) failed.new) (for_line k a b) }
{
    put_count(sink, failed, "for (a", k as u64);
    put_number_after(sink, failed, " = ", a);
    put_count(sink, failed, "; a", k as u64);
    put_number_after(sink, failed, " < ", b);
    put_count(sink, failed, "; a", k as u64);
    put_count(sink, failed, " = a", k as u64);
    put(sink, failed, " + 1LL) {\n");
}

/// Writes a statement, of no more levels than the limit of programs.
#[cycle(statement)]
fn put_stmt<K: Sink>(sink: &mut K, failed: &mut bool, stmt: &CStmt)
    ensures { Adds (progress (K.taken sink.old) (K.faults sink.old) failed.old) (progress (K.taken sink.new) (K.faults sink.new) failed.new) (stmt_text (stmt_of stmt.now)) }
{
    match stmt {
        CStmt::Set(k, e) => put_set(sink, failed, *k, e),
        CStmt::PutV(at, e) => put_entry(sink, failed, "V", at, e),
        CStmt::PutF(at, e) => put_entry(sink, failed, "F", at, e),
        CStmt::If(e, first, second) => {
            put(sink, failed, "if (");
            put_expr(sink, failed, e);
            put(sink, failed, ") {\n");
            put_stmts(sink, failed, first.as_slice());
            put(sink, failed, "} else {\n");
            put_stmts(sink, failed, second.as_slice());
            put(sink, failed, "}\n");
        }
        CStmt::For(k, a, b, body) => put_for(sink, failed, *k, *a, *b, body.as_slice()),
    }
}

/// Writes a `for`.
#[cycle(statement)]
fn put_for<K: Sink>(sink: &mut K, failed: &mut bool, k: u32, a: i64, b: i64, body: &[CStmt])
    ensures { Adds (progress (K.taken sink.old) (K.faults sink.old) failed.old) (progress (K.taken sink.new) (K.faults sink.new) failed.new) (stmt_text (for_each k a b (stmts_of body.now))) }
{
    put_for_line(sink, failed, k, a, b);
    put_stmts(sink, failed, body);
    put(sink, failed, "}\n");
}

/// Writes statements.
#[cycle(statement)]
fn put_stmts<K: Sink>(sink: &mut K, failed: &mut bool, body: &[CStmt])
    ensures { Adds (progress (K.taken sink.old) (K.faults sink.old) failed.old) (progress (K.taken sink.new) (K.faults sink.new) failed.new) (stmts_text (stmts_of body.now)) }
{
    for stmt in body {
        put_stmt(sink, failed, stmt);
    }
}

/// Writes numbers with commas between them.
fn put_numbers<K: Sink>(sink: &mut K, failed: &mut bool, numbers: &[i64])
    ensures { Adds (progress (K.taken sink.old) (K.faults sink.old) failed.old) (progress (K.taken sink.new) (K.faults sink.new) failed.new) (numbers_text numbers.now) }
{
    if let Some((first, others)) = numbers.split_first() {
        put_number(sink, failed, *first);
        for number in others {
            put_number_after(sink, failed, ",", *number);
        }
    }
}

/// Writes a table with its number.
fn put_table<K: Sink>(sink: &mut K, failed: &mut bool, t: u64, table: &Table)
    ensures { Adds (progress (K.taken sink.old) (K.faults sink.old) failed.old) (progress (K.taken sink.new) (K.faults sink.new) failed.new) (table_text t table.now.nums) }
{
    put_count(sink, failed, "static const i64 T", t);
    put_count(sink, failed, "[", table.nums.len() as u64);
    put(sink, failed, "] = {");
    put_numbers(sink, failed, table.nums.as_slice());
    put(sink, failed, "};\n");
}

/// Writes all tables.
fn put_tables<K: Sink>(sink: &mut K, failed: &mut bool, tables: &[Table])
    ensures { Adds (progress (K.taken sink.old) (K.faults sink.old) failed.old) (progress (K.taken sink.new) (K.faults sink.new) failed.new) (tables_text 0 (tables_of tables.now)) }
{
    let mut t = 0;
    for table in tables {
        put_table(sink, failed, t, table);
        t += 1;
    }
}

/// Writes the two arrays.
fn put_arrays<K: Sink>(sink: &mut K, failed: &mut bool, cells: u32)
    ensures { Adds (progress (K.taken sink.old) (K.faults sink.old) failed.old) (progress (K.taken sink.new) (K.faults sink.new) failed.new) (arrays_text cells) }
{
    put_count(sink, failed, "i64 V[", cells as u64);
    put_count(sink, failed, "];\ni64 F[", cells as u64);
    put(sink, failed, "];\n");
}

/// Writes the name of a step.
fn put_name<K: Sink>(sink: &mut K, failed: &mut bool, level: u64, worker: u64)
    ensures { Adds (progress (K.taken sink.old) (K.faults sink.old) failed.old) (progress (K.taken sink.new) (K.faults sink.new) failed.new) (step_name level worker) }
{
    put_count(sink, failed, "step_", level);
    put_count(sink, failed, "_", worker);
}

/// Writes the line of a variable.
fn put_var<K: Sink>(sink: &mut K, failed: &mut bool, k: u32)
    ensures { Adds (progress (K.taken sink.old) (K.faults sink.old) failed.old) (progress (K.taken sink.new) (K.faults sink.new) failed.new) (var_line k) }
{
    put_count(sink, failed, "i64 a", k as u64);
    put(sink, failed, " = 0LL;\n");
}

/// Writes the lines of so many variables.
fn put_vars<K: Sink>(sink: &mut K, failed: &mut bool, vars: u32)
    ensures { Adds (progress (K.taken sink.old) (K.faults sink.old) failed.old) (progress (K.taken sink.new) (K.faults sink.new) failed.new) (vars_text 0 vars) }
{
    for k in 0..vars {
        put_var(sink, failed, k);
    }
}

/// Writes a step.
fn put_step<K: Sink>(sink: &mut K, failed: &mut bool, level: u64, worker: u64, step: &CStep)
    ensures { Adds (progress (K.taken sink.old) (K.faults sink.old) failed.old) (progress (K.taken sink.new) (K.faults sink.new) failed.new) (step_text level worker (step_of step.now)) }
{
    put(sink, failed, "void ");
    put_name(sink, failed, level, worker);
    put(sink, failed, "(void) {\n");
    put_vars(sink, failed, step.vars);
    put_stmts(sink, failed, step.body.as_slice());
    put(sink, failed, "}\n");
}

/// Writes all steps, level by level.
fn put_steps<K: Sink>(sink: &mut K, failed: &mut bool, workers: u32, steps: &[CStep])
    ensures { Adds (progress (K.taken sink.old) (K.faults sink.old) failed.old) (progress (K.taken sink.new) (K.faults sink.new) failed.new) (steps_text workers 0 0 (map step_of steps.now)) }
{
    let mut level = 0;
    let mut worker = 0;
    for step in steps {
        put_step(sink, failed, level, worker, step);
        level = next_level(workers, level, worker);
        worker = next_worker(workers, worker);
    }
}

/// Writes the line of a call.
fn put_call<K: Sink>(sink: &mut K, failed: &mut bool, level: u64, worker: u64)
    ensures { Adds (progress (K.taken sink.old) (K.faults sink.old) failed.old) (progress (K.taken sink.new) (K.faults sink.new) failed.new) (call_text level worker) }
{
    put_name(sink, failed, level, worker);
    put(sink, failed, "();\n");
}

/// Writes a call of each step, level by level.
fn put_calls<K: Sink>(sink: &mut K, failed: &mut bool, workers: u32, steps: &[CStep])
    ensures { Adds (progress (K.taken sink.old) (K.faults sink.old) failed.old) (progress (K.taken sink.new) (K.faults sink.new) failed.new) (calls_text workers 0 0 (map step_of steps.now)) }
{
    let mut level = 0;
    let mut worker = 0;
    for _step in steps {
        put_call(sink, failed, level, worker);
        level = next_level(workers, level, worker);
        worker = next_worker(workers, worker);
    }
}

/// Writes a program.
fn put_program<K: Sink>(sink: &mut K, failed: &mut bool, program: &CProgram)
    ensures { Adds (progress (K.taken sink.old) (K.faults sink.old) failed.old) (progress (K.taken sink.new) (K.faults sink.new) failed.new) (program_text (program_of program.now)) }
{
    let steps = program.steps.as_slice();
    put(sink, failed, "/* AOL-C/1 */\ntypedef long long i64;\n");
    put_tables(sink, failed, program.tables.as_slice());
    put_arrays(sink, failed, program.cells);
    put_steps(sink, failed, program.workers, steps);
    put(sink, failed, "void run(void) {\n");
    put_calls(sink, failed, program.workers, steps);
    put(sink, failed, "}\n");
}

/// The level of the step after one of this level and worker.
fn next_level(workers: u32, level: u64, worker: u64) -> u64
    requires { level + worker + 1 < 2 ^ 64 }
    ensures { result ≡ (if worker + 1 == workers then level + 1 else level) }
{
    if worker + 1 == workers as u64 {
        level + 1
    } else {
        level
    }
}

/// The worker of the step after one of this worker.
fn next_worker(workers: u32, worker: u64) -> u64
    requires { worker + 1 < 2 ^ 64 }
    ensures { result ≡ (if worker + 1 == workers then 0 else worker + 1) }
{
    if worker + 1 == workers as u64 {
        0
    } else {
        worker + 1
    }
}

/// The operator between two blanks.
fn op_text(op: COp) -> &'static str
    ensures { result.now ≡ op_text op }
{
    match op {
        COp::Add => " + ",
        COp::Sub => " - ",
        COp::Mul => " * ",
        COp::Div => " / ",
        COp::Rem => " % ",
        COp::Lt => " < ",
        COp::Le => " <= ",
        COp::Eq => " == ",
    }
}

/// Writes the text of a program, and takes no memory.
///
/// It fails only where the sink's count of faults rose in this call. The sink then took a prefix
/// of the text.
pub fn write_c<K: Sink>(program: &CProgram, sink: &mut K) -> Result<(), Failed>
    requires formed { IsWellFormed (program_of program.now) }
    ensures all { OnOk result (Appends (K.taken sink.old) (K.taken sink.new) (program_text (program_of program.now))) }
    ensures prefix { OnErr result (TookPrefix (K.taken sink.old) (K.taken sink.new) (program_text (program_of program.now))) }
    ensures cause { HasCause (K.faults sink.old) (K.faults sink.new) result }
{
    let mut failed = false;
    put_program(sink, &mut failed, program);
    if failed { Err(Failed) } else { Ok(()) }
}
