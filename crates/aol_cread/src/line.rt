use aol_csyn::CExpr;
use aol_shape::Items;

/// One line of a program's text.
#[derive(Drop)]
pub(crate) enum CLine {
    Head,
    TypeName,
    Table(u32, Items<i64>),
    V(u32),
    F(u32),
    Step(u32, u32),
    Var(u32),
    Set(u32, CExpr),
    PutV(CExpr, CExpr),
    PutF(CExpr, CExpr),
    If(CExpr),
    Else,
    For(u32, i64, i64),
    Close,
    Run,
    Call(u32, u32),
}
