ghost use Rattle.std.specs.Prelude.{◌≡◌};
ghost use Rattle.aol_lines.specs.Status.{code_of, word_of};

/// What a status tells.
#[derive(Clone, Copy, Debug, PartialEq, Eq)]
pub enum StatusKind {
    /// The output was written.
    Done,
    /// The words are no command.
    Words,
    /// The source failed.
    Read,
    /// The sink failed.
    Sink,
    /// There was no memory.
    Memory,
    /// The source had too many bytes.
    Long,
    /// The bytes are no JSON.
    Json,
    /// The tree is no document.
    Grammar,
    /// A rule on shapes and names fails.
    Shape,
    /// A limit is passed.
    Limit,
    /// An element is written twice.
    Twice,
    /// An element that is read isn't given.
    Unwritten,
    /// An element needs itself.
    Cycle,
    /// An input isn't one of the main task.
    Input,
    /// A transformation is refused.
    Transform,
    /// A placement is refused.
    Allocate,
    /// An element of a main output is a fault.
    Fault,
    /// The command isn't built for the document.
    Unbuilt,
    /// A step of a program is stuck.
    Stuck,
}

impl StatusKind {
    /// The number that the program ends with.
    pub fn code(self) -> u8
        ensures { result ≡ code_of self }
    {
        match self {
            StatusKind::Done => 0,
            StatusKind::Words => 1,
            StatusKind::Read => 2,
            StatusKind::Sink => 3,
            StatusKind::Memory => 4,
            StatusKind::Long => 5,
            StatusKind::Json => 6,
            StatusKind::Grammar => 7,
            StatusKind::Shape => 8,
            StatusKind::Limit => 9,
            StatusKind::Twice => 10,
            StatusKind::Unwritten => 11,
            StatusKind::Cycle => 12,
            StatusKind::Input => 13,
            StatusKind::Transform => 14,
            StatusKind::Allocate => 15,
            StatusKind::Fault => 16,
            StatusKind::Unbuilt => 17,
            StatusKind::Stuck => 18,
        }
    }

    /// The first word of its line; empty where it has no line of its own.
    pub fn word(self) -> &'static str
        ensures { result.now ≡ word_of self }
    {
        match self {
            StatusKind::Done | StatusKind::Sink | StatusKind::Memory => "",
            StatusKind::Words => "words",
            StatusKind::Read => "read",
            StatusKind::Long => "long",
            StatusKind::Json => "json",
            StatusKind::Grammar => "grammar",
            StatusKind::Shape => "shape",
            StatusKind::Limit => "limit",
            StatusKind::Twice => "twice",
            StatusKind::Unwritten => "unwritten",
            StatusKind::Cycle => "cycle",
            StatusKind::Input => "input",
            StatusKind::Transform => "transform",
            StatusKind::Allocate => "allocate",
            StatusKind::Fault => "fault",
            StatusKind::Unbuilt => "unbuilt",
            StatusKind::Stuck => "stuck",
        }
    }
}
