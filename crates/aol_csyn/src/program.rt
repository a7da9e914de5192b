use aol_shape::Items;

/// A program of the emitted subset of C. The step of a level and a worker is number
/// `level * workers + worker`.
#[derive(Drop)]
pub struct CProgram {
    pub tables: Items<Table>,
    /// How many numbers each of the arrays V and F has.
    pub cells: u32,
    pub levels: u32,
    pub workers: u32,
    pub steps: Items<CStep>,
}

/// Constant numbers.
#[derive(Drop)]
pub struct Table {
    pub nums: Items<i64>,
}

/// What one worker does in one level, with variables of its own.
#[derive(Drop)]
pub struct CStep {
    pub vars: u32,
    pub body: Items<CStmt>,
}

/// A statement.
#[derive(Drop)]
pub enum CStmt {
    /// A variable takes a value.
    Set(u32, CExpr),
    /// The entry of V at an index takes a value.
    PutV(CExpr, CExpr),
    /// The entry of F at an index takes a value.
    PutF(CExpr, CExpr),
    /// The first body where the number isn't 0, else the second.
    If(CExpr, Items<CStmt>, Items<CStmt>),
    /// The body, with the variable from the first bound to below the second.
    For(u32, i64, i64, Items<CStmt>),
}

/// An expression.
#[derive(Drop)]
pub enum CExpr {
    Num(i64),
    Var(u32),
    /// The entry of a table at an index.
    Tab(u32, Box<CExpr>),
    /// The entry of V at an index.
    V(Box<CExpr>),
    /// The entry of F at an index.
    F(Box<CExpr>),
    Bin(COp, Box<CExpr>, Box<CExpr>),
}

/// An operator between two expressions.
#[derive(Clone, Copy, Debug, PartialEq, Eq)]
pub enum COp {
    Add,
    Sub,
    Mul,
    Div,
    Rem,
    Lt,
    Le,
    Eq,
}
