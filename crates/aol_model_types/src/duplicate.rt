ghost use Rattle.std.specs.Prelude.{◌≡◌, IfOk};

use crate::document::Model;
use crate::task::{
    Compound, Copied, Elementary, Hook, OutPort, Part, Plain, Repeated, Task, TilerOn,
};
use aol_expr_tree::{Expr, Port, Width};
use aol_link::{Choice, Fallback, Interlink};
use aol_reshape::Reshape;
use aol_shape::{IntVec, Items, Name, NoMemory, Shape};
use aol_tiler::Tiler;
use std::alloc::Global;

/// A value of which equal ones can be made.
trait Duplicate: Drop {
    fn duplicate(&self, alloc: Global) -> Result<Self, NoMemory>
        ensures { IfOk result (λ copy. copy ≡ self.now) };
}

/// Equal items, in the same order.
fn duplicates<T: Duplicate>(alloc: Global, items: &[T]) -> Result<Items<T>, NoMemory>
    ensures { IfOk result (λ copies. copies ≡ items.now) }
{
    let mut copies = Items::new(alloc);
    for item in items {
        let copy = item.duplicate(alloc)?;
        copies.push(copy)?;
    }
    Ok(copies)
}

impl<T: Duplicate> Duplicate for Items<T> {
    fn duplicate(&self, alloc: Global) -> Result<Items<T>, NoMemory> {
        duplicates(alloc, self.as_slice())
    }
}

impl Duplicate for Name {
    fn duplicate(&self, alloc: Global) -> Result<Name, NoMemory> {
        Name::from_str(alloc, self.as_str())
    }
}

impl Duplicate for Shape {
    fn duplicate(&self, alloc: Global) -> Result<Shape, NoMemory> {
        match Shape::new(alloc, self.as_slice()) {
            Some(shape) => Ok(shape),
            None => unreachable!(),
        }
    }
}

impl Duplicate for IntVec {
    fn duplicate(&self, alloc: Global) -> Result<IntVec, NoMemory> {
        match IntVec::new(alloc, self.as_slice()) {
            Some(vector) => Ok(vector),
            None => unreachable!(),
        }
    }
}

impl Duplicate for Tiler {
    fn duplicate(&self, alloc: Global) -> Result<Tiler, NoMemory> {
        let _columns = self.paving_columns();
        let origin = self.origin.duplicate(alloc)?;
        let paving = self.paving.duplicate(alloc)?;
        let fitting = self.fitting.duplicate(alloc)?;
        Ok(Tiler {
            origin,
            paving,
            fitting,
        })
    }
}

impl Duplicate for Expr {
    fn duplicate(&self, alloc: Global) -> Result<Expr, NoMemory> {
        self.copy(alloc)
    }
}

impl Duplicate for Width {
    fn duplicate(&self, _alloc: Global) -> Result<Width, NoMemory> {
        Ok(*self)
    }
}

impl Duplicate for Port {
    fn duplicate(&self, alloc: Global) -> Result<Port, NoMemory> {
        Ok(Port {
            name: self.name.duplicate(alloc)?,
            shape: self.shape.duplicate(alloc)?,
        })
    }
}

impl Duplicate for OutPort {
    fn duplicate(&self, alloc: Global) -> Result<OutPort, NoMemory> {
        Ok(OutPort {
            port: self.port.duplicate(alloc)?,
            expr: self.expr.duplicate(alloc)?,
        })
    }
}

impl Duplicate for Elementary {
    fn duplicate(&self, alloc: Global) -> Result<Elementary, NoMemory> {
        Ok(Elementary {
            name: self.name.duplicate(alloc)?,
            ins: self.ins.duplicate(alloc)?,
            outs: self.outs.duplicate(alloc)?,
            wide_in: self.wide_in.duplicate(alloc)?,
            wide_out: self.wide_out.duplicate(alloc)?,
        })
    }
}

impl Duplicate for Part {
    fn duplicate(&self, alloc: Global) -> Result<Part, NoMemory> {
        Ok(Part {
            name: self.name.duplicate(alloc)?,
            task: self.task.duplicate(alloc)?,
        })
    }
}

impl Duplicate for Hook {
    fn duplicate(&self, alloc: Global) -> Result<Hook, NoMemory> {
        let port = self.port.duplicate(alloc)?;
        match &self.part {
            Some(part) => {
                let part = part.duplicate(alloc)?;
                Ok(Hook {
                    part: Some(part),
                    port,
                })
            }
            None => Ok(Hook { part: None, port }),
        }
    }
}

impl Duplicate for Plain {
    fn duplicate(&self, alloc: Global) -> Result<Plain, NoMemory> {
        Ok(Plain {
            from: self.from.duplicate(alloc)?,
            to: self.to.duplicate(alloc)?,
        })
    }
}

impl Duplicate for Reshape {
    fn duplicate(&self, alloc: Global) -> Result<Reshape, NoMemory> {
        Ok(Reshape {
            space: self.space.duplicate(alloc)?,
            pattern: self.pattern.duplicate(alloc)?,
            source: self.source.duplicate(alloc)?,
            target: self.target.duplicate(alloc)?,
        })
    }
}

impl Duplicate for Copied {
    fn duplicate(&self, alloc: Global) -> Result<Copied, NoMemory> {
        Ok(Copied {
            from: self.from.duplicate(alloc)?,
            to: self.to.duplicate(alloc)?,
            by: self.by.duplicate(alloc)?,
        })
    }
}

impl Duplicate for Compound {
    fn duplicate(&self, alloc: Global) -> Result<Compound, NoMemory> {
        Ok(Compound {
            name: self.name.duplicate(alloc)?,
            ins: self.ins.duplicate(alloc)?,
            outs: self.outs.duplicate(alloc)?,
            parts: self.parts.duplicate(alloc)?,
            links: self.links.duplicate(alloc)?,
            reshapes: self.reshapes.duplicate(alloc)?,
        })
    }
}

impl Duplicate for TilerOn {
    fn duplicate(&self, alloc: Global) -> Result<TilerOn, NoMemory> {
        Ok(TilerOn {
            outer: self.outer.duplicate(alloc)?,
            inner: self.inner.duplicate(alloc)?,
            tiler: self.tiler.duplicate(alloc)?,
        })
    }
}

impl Duplicate for Fallback {
    fn duplicate(&self, alloc: Global) -> Result<Fallback, NoMemory> {
        match self {
            Fallback::Number(number) => Ok(Fallback::Number(*number)),
            Fallback::Tiled { outer, tiler } => {
                let outer = outer.duplicate(alloc)?;
                let tiler = tiler.duplicate(alloc)?;
                Ok(Fallback::Tiled { outer, tiler })
            }
        }
    }
}

impl Duplicate for Choice {
    fn duplicate(&self, alloc: Global) -> Result<Choice, NoMemory> {
        Ok(Choice {
            when: self.when,
            take: self.take.duplicate(alloc)?,
        })
    }
}

impl Duplicate for Interlink {
    fn duplicate(&self, alloc: Global) -> Result<Interlink, NoMemory> {
        Ok(Interlink {
            from: self.from.duplicate(alloc)?,
            to: self.to.duplicate(alloc)?,
            distance: self.distance.duplicate(alloc)?,
            wrap: self.wrap,
            rest: self.rest.duplicate(alloc)?,
        })
    }
}

impl Duplicate for Repeated {
    fn duplicate(&self, alloc: Global) -> Result<Repeated, NoMemory> {
        Ok(Repeated {
            name: self.name.duplicate(alloc)?,
            ins: self.ins.duplicate(alloc)?,
            outs: self.outs.duplicate(alloc)?,
            space: self.space.duplicate(alloc)?,
            task: self.task.duplicate(alloc)?,
            tilers: self.tilers.duplicate(alloc)?,
            links: self.links.duplicate(alloc)?,
        })
    }
}

impl Duplicate for Task {
    fn duplicate(&self, alloc: Global) -> Result<Task, NoMemory> {
        match self {
            Task::Elementary(task) => {
                let copy = task.duplicate(alloc)?;
                Ok(Task::Elementary(copy))
            }
            Task::Compound(task) => {
                let copy = task.duplicate(alloc)?;
                Ok(Task::Compound(copy))
            }
            Task::Repeated(task) => {
                let copy = task.duplicate(alloc)?;
                Ok(Task::Repeated(copy))
            }
        }
    }
}

impl Model {
    /// An equal model.
    pub fn copy(&self, alloc: Global) -> Result<Model, NoMemory>
        ensures { IfOk result (λ m. m ≡ self.now) }
    {
        Ok(Model {
            tasks: self.tasks.duplicate(alloc)?,
            main: self.main.duplicate(alloc)?,
        })
    }
}
