use smallvec::SmallVec;
use std::alloc::Global;
use std::marker::Model;

/// A key of a document, or of the objects that hold a program or a reason.
#[derive(Clone, Copy, Debug, PartialEq, Eq)]
pub enum Key {
    KModel,
    KInput,
    KTransform,
    KAllocate,
    KVersion,
    KTasks,
    KMain,
    KKind,
    KName,
    KIn,
    KOut,
    KShape,
    KType,
    KExpr,
    KParts,
    KLinks,
    KReshapes,
    KTask,
    KFrom,
    KTo,
    KSpace,
    KPattern,
    KSource,
    KTarget,
    KTilers,
    KOuter,
    KInner,
    KTiler,
    KDistance,
    KModulo,
    KDefault,
    KDimension,
    KSide,
    KValue,
    KBlock,
    KFirst,
    KSecond,
    KPicks,
    KLeaf,
    KProcessors,
    KProgram,
    KMemory,
    KOrder,
    KDocument,
    KReason,
}

#[derive(Clone, Copy, Debug, PartialEq, Eq)]
pub enum PlaceStep {
    Key(Key),
    Index(u32),
}

impl Default for PlaceStep {
    fn default() -> PlaceStep {
        PlaceStep::Index(0)
    }
}

/// A place in the document, and a byte of a text there.
#[derive(Drop)]
pub struct Place {
    steps: SmallVec<PlaceStep, 12>,
    byte: Option<u32>,
}

impl Model for Place {
    ghost use Rattle.std.specs.Prelude.{◌≤◌, length};
    ghost use Rattle.aol_model_types.specs.Places.{PlaceOf, place_code};

    ghost Value = { PlaceOf };

    ghost coded = { place_code };

    ghost view = { λ p. record { steps = p.steps.items; byte = p.byte } };

    ghost invariant = { λ p. length p.steps.items ≤ 12 };
}

impl Place {
    ghost use Rattle.std.specs.Prelude.{◌≡◌};

    /// The steps from the whole document.
    pub fn steps(&self) -> &[PlaceStep]
        ensures { result.now ≡ self.now.steps }
    {
        self.steps.as_slice()
    }

    /// The byte of the text at the place, where there is one.
    pub fn byte(&self) -> Option<u32>
        ensures { result ≡ self.now.byte }
    {
        self.byte
    }
}

impl Key {
    ghost use Rattle.std.specs.Prelude.{◌≡◌};
    ghost use Rattle.aol_model_types.specs.Places.{key_text};

    /// The key as it is written.
    pub fn text(self) -> &'static str
        ensures { result.now ≡ key_text self }
    {
        match self {
            Key::KModel => "model",
            Key::KInput => "input",
            Key::KTransform => "transform",
            Key::KAllocate => "allocate",
            Key::KVersion => "version",
            Key::KTasks => "tasks",
            Key::KMain => "main",
            Key::KKind => "kind",
            Key::KName => "name",
            Key::KIn => "in",
            Key::KOut => "out",
            Key::KShape => "shape",
            Key::KType => "type",
            Key::KExpr => "expr",
            Key::KParts => "parts",
            Key::KLinks => "links",
            Key::KReshapes => "reshapes",
            Key::KTask => "task",
            Key::KFrom => "from",
            Key::KTo => "to",
            Key::KSpace => "space",
            Key::KPattern => "pattern",
            Key::KSource => "source",
            Key::KTarget => "target",
            Key::KTilers => "tilers",
            Key::KOuter => "outer",
            Key::KInner => "inner",
            Key::KTiler => "tiler",
            Key::KDistance => "distance",
            Key::KModulo => "modulo",
            Key::KDefault => "default",
            Key::KDimension => "dimension",
            Key::KSide => "side",
            Key::KValue => "value",
            Key::KBlock => "block",
            Key::KFirst => "first",
            Key::KSecond => "second",
            Key::KPicks => "picks",
            Key::KLeaf => "leaf",
            Key::KProcessors => "processors",
            Key::KProgram => "program",
            Key::KMemory => "memory",
            Key::KOrder => "order",
            Key::KDocument => "document",
            Key::KReason => "reason",
        }
    }
}

/// The steps to a value that is read.
#[derive(Drop)]
pub struct Path {
    steps: SmallVec<PlaceStep, 12>,
}

impl Model for Path {
    ghost use Rattle.std.specs.Prelude.{List, ◌≤◌, length};
    ghost use Rattle.aol_model_types.specs.declared.place.PlaceStep.{PlaceStep};

    ghost Value = { List PlaceStep };

    ghost view = { λ p. p.steps.items };

    ghost invariant = { λ p. length p.steps.items ≤ 12 };
}

impl Path {
    ghost use Rattle.std.specs.Prelude.{◌≡◌, ◌+◌, ◌<◌, ◌++◌, ◌∷◌, [], length};
    ghost use Rattle.aol_model_types.specs.Places.{to_key, to_index, whole};

    /// The whole document.
    pub fn top(alloc: Global) -> Path
        ensures { result ≡ [] }
    {
        Path {
            steps: SmallVec::new(alloc),
        }
    }

    /// The path that is one step longer.
    fn further(&self, step: PlaceStep) -> Path
        requires { length self.now < 12 }
        ensures { result ≡ self.now ++ step ∷ [] }
    {
        match SmallVec::from_slice(*self.steps.allocator(), self.steps.as_slice()) {
            Ok(mut steps) => {
                steps.push_reserved(step);
                Path { steps }
            }
            Err(_) => unreachable!(),
        }
    }

    /// The same path.
    pub fn copy(&self) -> Path
        ensures { result ≡ self.now }
    {
        match SmallVec::from_slice(*self.steps.allocator(), self.steps.as_slice()) {
            Ok(steps) => Path { steps },
            Err(_) => unreachable!(),
        }
    }

    /// The path of a member.
    pub fn to_key(&self, key: Key) -> Path
        requires { length self.now < 12 }
        ensures { result ≡ to_key self.now key }
    {
        self.further(PlaceStep::Key(key))
    }

    /// The path of an element.
    pub fn to_index(&self, index: u32) -> Path
        requires { length self.now < 12 }
        ensures { result ≡ to_index self.now index }
    {
        self.further(PlaceStep::Index(index))
    }

    /// The place at which the path ends.
    pub fn place(self) -> Place
        ensures { result ≡ whole self }
    {
        let Path { steps } = self;
        Place { steps, byte: None }
    }

    /// A byte of the text at which the path ends.
    pub fn byte(self, byte: u32) -> Place
        ensures { result ≡ record { steps = self; byte = Some byte } }
    {
        let Path { steps } = self;
        Place {
            steps,
            byte: Some(byte),
        }
    }
}
