//! The search for levels: an instance has its level once all that it needs have theirs.

ghost use Rattle.std.specs.Prelude.{◌≡◌, ◌<◌, ◌+◌, ◌^◌, ℕ, [], ◌∷◌, ◌++◌, Some, reverse, length, slice_get, slice_index, slice_set, fold, max, OnOk, IfOk, IfNone};
ghost use Rattle.std.specs.List.{IsAmong};
ghost use Rattle.aol_depend.specs.Needs.{AreWithin, IsFound};
ghost use Rattle.aol_depend.specs.Search.{IsAt, IsSearch, KeepsOld, steps_left, doomed};

use crate::needs::Needs;
use std::alloc::{AllocError, Global};

/// How far the search for the level of an instance has come.
///
/// A `Ranked` instance has its level, and so has all that it needs. A `Doomed` one needs a doomed one, so it has none.
#[derive(Clone, Copy, Debug, PartialEq, Eq)]
pub enum Mark {
    New,
    Open,
    Ranked,
    Doomed,
}

/// An open instance: what it needs before place `next` has levels, and `level` is one above the greatest of these.
#[derive(Clone, Copy)]
pub struct Visit {
    pub instance: u32,
    pub next: u32,
    pub level: u32,
}

/// A search: the marks and levels of all instances, how many have levels, and the open ones, where each needs the next.
#[derive(Drop)]
pub struct Search {
    pub marks: Vec<Mark>,
    pub levels: Vec<u32>,
    pub ranked: u32,
    pub path: Vec<Visit>,
}

impl Search {
    /// A search that has not begun.
    pub fn new(alloc: Global, needs: &Needs) -> Result<Search, AllocError>
        requires { AreWithin needs.now }
        ensures state { IfOk result (λ s. IsSearch needs.now s) }
        ensures path { IfOk result (λ s. s.path.items ≡ []) }
    {
        let count = needs.len();
        Ok(Search {
            marks: vec![in alloc; Mark::New; count]?,
            levels: vec![in alloc; 0; count]?,
            ranked: 0,
            path: Vec::new(alloc),
        })
    }

    /// Opens a new instance.
    fn enter(&mut self, instance: u32) -> Result<(), AllocError>
        requires { slice_get self.old.marks.items instance ≡ Some Mark.New }
        ensures marks { self.new.marks.items ≡ slice_set self.old.marks.items instance Mark.Open }
        ensures levels { self.new.levels.items ≡ self.old.levels.items }
        ensures ranked { self.new.ranked ≡ self.old.ranked }
        ensures path { OnOk result (self.new.path.items ≡ self.old.path.items ++ record { instance = instance; next = 0; level = 0 } ∷ []) }
    {
        self.marks[instance as usize] = Mark::Open;
        self.path.push(Visit {
            instance,
            next: 0,
            level: 0,
        })?;
        Ok(())
    }

    /// The mark of an instance.
    fn mark(&self, instance: u32) -> Mark
        requires { instance < length self.now.marks.items }
        ensures { slice_get self.now.marks.items instance ≡ Some result }
    {
        self.marks[instance as usize]
    }

    /// The level of an instance.
    fn level(&self, instance: u32) -> u32
        requires { instance < length self.now.levels.items }
        ensures { result ≡ slice_index self.now.levels.items instance }
    {
        self.levels[instance as usize]
    }

    /// Gives the instance its level.
    fn rank(&mut self, visit: Visit)
        requires marks { visit.instance < length self.old.marks.items }
        requires levels { visit.instance < length self.old.levels.items }
        requires few { self.old.ranked + 1 < 2 ^ 32 }
        ensures marks { self.new.marks.items ≡ slice_set self.old.marks.items visit.instance Mark.Ranked }
        ensures levels { self.new.levels.items ≡ slice_set self.old.levels.items visit.instance visit.level }
        ensures ranked { self.new.ranked ≡ self.old.ranked + 1 }
        ensures path { self.new.path.items ≡ self.old.path.items }
    {
        self.marks[visit.instance as usize] = Mark::Ranked;
        self.levels[visit.instance as usize] = visit.level;
        self.ranked += 1;
    }

    /// Dooms all open instances.
    fn doom(&mut self)
        requires { (v : Visit) → IsAmong (reverse self.old.path.items) v → v.instance < length self.old.marks.items }
        ensures marks { self.new.marks.items ≡ doomed self.old.marks.items (reverse self.old.path.items) }
        ensures levels { self.new.levels.items ≡ self.old.levels.items }
        ensures ranked { self.new.ranked ≡ self.old.ranked }
        ensures path { self.new.path.items ≡ [] }
    {
        while let Some(visit) = self.path.pop() {
            self.marks[visit.instance as usize] = Mark::Doomed;
        }
    }

    /// Looks at the next instance that the last open one needs.
    fn step(&mut self, needs: &Needs, visit: Visit) -> Result<(), AllocError>
        requires { IsAt needs.now self.old.marks.items self.old.levels.items self.old.ranked (visit ∷ reverse self.old.path.items) }
        ensures state { OnOk result (IsSearch needs.now self.new) }
        ensures old { KeepsOld self.old.marks.items self.new.marks.items }
        ensures smaller { OnOk result (steps_left needs.now self.new.marks.items (reverse self.new.path.items) < steps_left needs.now self.old.marks.items (visit ∷ reverse self.old.path.items)) }
    {
        let Some(needed) = needs.next(visit.instance, visit.next) else {
            self.rank(visit);
            return Ok(());
        };
        match self.mark(needed) {
            Mark::New => {
                self.path.push(visit)?;
                self.enter(needed)
            }
            Mark::Ranked => {
                let level = visit.level.max(self.level(needed) + 1);
                self.path.push(Visit {
                    instance: visit.instance,
                    next: visit.next + 1,
                    level,
                })?;
                Ok(())
            }
            Mark::Open | Mark::Doomed => {
                self.path.push(visit)?;
                self.doom();
                Ok(())
            }
        }
    }

    /// Goes on until no instance is open.
    fn settle(&mut self, needs: &Needs) -> Result<(), AllocError>
        requires { IsSearch needs.now self.old }
        ensures state { OnOk result (IsSearch needs.now self.new) }
        ensures path { OnOk result (self.new.path.items ≡ []) }
        ensures old { KeepsOld self.old.marks.items self.new.marks.items }
    {
        while let Some(visit) = self.path.pop() {
            self.step(needs, visit)?;
        }
        Ok(())
    }

    /// Finds the level of an instance, or that it has none.
    fn reach(&mut self, needs: &Needs, instance: u32) -> Result<(), AllocError>
        requires state { IsSearch needs.now self.old }
        requires path { self.old.path.items ≡ [] }
        requires within { instance < length needs.now }
        ensures state { OnOk result (IsSearch needs.now self.new) }
        ensures path { OnOk result (self.new.path.items ≡ []) }
        ensures old { KeepsOld self.old.marks.items self.new.marks.items }
        ensures reached { OnOk result (slice_get self.new.marks.items instance ≡ Some Mark.New → ⊥) }
    {
        if let Mark::New = self.mark(instance) {
            self.enter(instance)?;
            return self.settle(needs);
        }
        Ok(())
    }

    /// Finds the level of each instance, or that it has none.
    pub fn run(&mut self, needs: &Needs) -> Result<(), AllocError>
        requires state { IsSearch needs.now self.old }
        requires path { self.old.path.items ≡ [] }
        ensures state { OnOk result (IsSearch needs.now self.new) }
        ensures path { OnOk result (self.new.path.items ≡ []) }
        ensures all { OnOk result ((j : ℕ) → slice_get self.new.marks.items j ≡ Some Mark.New → ⊥) }
    {
        for instance in 0..needs.len() as u32 {
            self.reach(needs, instance)?;
        }
        Ok(())
    }

    /// The first instance that has no level, where there is one.
    pub fn first_doomed(&self, needs: &Needs) -> Option<u32>
        requires state { IsSearch needs.now self.now }
        requires path { self.now.path.items ≡ [] }
        requires all { (j : ℕ) → slice_get self.now.marks.items j ≡ Some Mark.New → ⊥ }
        ensures found { IsFound needs.now self.now result }
        ensures few { IfNone result (fold max 0 self.now.levels.items + 1 < 2 ^ 32) }
    {
        for instance in 0..needs.len() as u32 {
            if let Mark::Doomed = self.mark(instance) {
                return Some(instance);
            }
        }
        None
    }
}
