use aol_expr_tree::{Expr, Port, Width};
use aol_link::Interlink;
use aol_reshape::Reshape;
use aol_shape::{Items, Name, Shape};
use aol_tiler::Tiler;

/// An output port and the expression of its elements.
#[derive(Drop)]
pub struct OutPort {
    pub port: Port,
    pub expr: Expr,
}

/// A task that computes. Each port has its width in the list beside it.
#[derive(Drop)]
pub struct Elementary {
    pub name: Name,
    pub ins: Items<Port>,
    pub outs: Items<OutPort>,
    pub wide_in: Items<Width>,
    pub wide_out: Items<Width>,
}

/// A place of a compound at which a task stands.
#[derive(Drop)]
pub struct Part {
    pub name: Name,
    pub task: Name,
}

/// A port of a part, or the compound's own.
#[derive(Drop)]
pub struct Hook {
    pub part: Option<Name>,
    pub port: Name,
}

#[derive(Drop)]
pub struct Plain {
    pub from: Hook,
    pub to: Hook,
}

#[derive(Drop)]
pub struct Copied {
    pub from: Hook,
    pub to: Hook,
    pub by: Reshape,
}

/// A graph of tasks.
#[derive(Drop)]
pub struct Compound {
    pub name: Name,
    pub ins: Items<Port>,
    pub outs: Items<Port>,
    pub parts: Items<Part>,
    pub links: Items<Plain>,
    pub reshapes: Items<Copied>,
}

#[derive(Drop)]
pub struct TilerOn {
    pub outer: Name,
    pub inner: Name,
    pub tiler: Tiler,
}

/// One task at each point of a space.
#[derive(Drop)]
pub struct Repeated {
    pub name: Name,
    pub ins: Items<Port>,
    pub outs: Items<Port>,
    pub space: Shape,
    pub task: Name,
    pub tilers: Items<TilerOn>,
    pub links: Items<Interlink>,
}

#[derive(Drop)]
pub enum Task {
    Elementary(Elementary),
    Compound(Compound),
    Repeated(Repeated),
}
