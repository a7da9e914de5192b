ghost use Rattle.std.specs.Prelude.{IfOk};
ghost use Rattle.aol_csyn.specs.Form.{IsWellFormed};
ghost use Rattle.aol_csyn.specs.Stored.{program_of};

use aol_cexec::{ReadCRefused, read_c};
use aol_csyn::CProgram;
use std::alloc::Global;
use std::test::Fail;

/// A program of two steps, the second of them empty, whose text ends with these lines.
pub(crate) const FIRST: &str = "/* AOL-C/1 */
typedef long long i64;
i64 V[3];
i64 F[3];
void step_0_0(void) {
V[2LL] = (V[0LL] + V[1LL]);
}
void step_0_1(void) {
";

/// The lines after an empty second step's first.
pub(crate) const LAST: &str = "}
void run(void) {
step_0_0();
step_0_1();
}
";

/// A program of one step up to its statements: three cells, a table, and two variables.
pub(crate) const OPEN: &str = "/* AOL-C/1 */
typedef long long i64;
static const i64 T0[2] = {7LL,(-5LL)};
i64 V[3];
i64 F[3];
void step_0_0(void) {
i64 a0 = 0LL;
i64 a1 = 0LL;
";

/// The end of it.
pub(crate) const CLOSE: &str = "}
void run(void) {
step_0_0();
}
";

/// What reading three texts as one answers.
pub(crate) fn read(
    alloc: Global,
    first: &str,
    second: &str,
    third: &str,
) -> Result<Result<CProgram, u32>, Fail>
    ensures { IfOk result (λ r. IfOk r (λ p. IsWellFormed (program_of p))) }
{
    let mut text = String::new(alloc);
    text.push_str(first)?;
    text.push_str(second)?;
    text.push_str(third)?;
    if text.len() > 1000 {
        return Err("too long".into());
    }
    match read_c(alloc, text.as_str()) {
        Ok(program) => Ok(Ok(program)),
        Err(ReadCRefused::At { line }) => Ok(Err(line)),
        Err(ReadCRefused::NoMemory) => Err("no memory".into()),
    }
}
