//! What is to be run.
ghost use Rattle.std.specs.Prelude.{◌≡◌, IfSome};
ghost use Rattle.lob_bench.specs.Kernels.{name_of};

/// A kernel, how many times it runs, and the size of its input.
#[derive(Clone, Copy, Debug)]
pub struct Request {
    pub kernel: Kernel,
    pub rounds: u64,
    pub size: u32,
}

/// What a round does.
#[derive(Clone, Copy, Debug, PartialEq, Eq)]
pub enum Kernel {
    /// Encodes an array of so many objects of three members.
    Encode,
    /// Decodes the encoding of such an array.
    Decode,
    /// Prints such an array from its encoding.
    Print,
    /// Sums up how much of such an encoding is in use.
    Used,
    /// Looks up 1,024 keys in an object of so many members; about every second one is absent.
    Member,
    /// Decodes bytes: random ones, or a small document with changes, in turns.
    Refuse,
}

impl Kernel {
    pub fn named(name: &str) -> Option<Kernel>
        ensures { IfSome result (λ kernel. name_of kernel ≡ name.now) }
    {
        match name {
            "encode" => Some(Kernel::Encode),
            "decode" => Some(Kernel::Decode),
            "print" => Some(Kernel::Print),
            "used" => Some(Kernel::Used),
            "member" => Some(Kernel::Member),
            "refuse" => Some(Kernel::Refuse),
            _ => None,
        }
    }

    pub fn name(self) -> &'static str
        ensures { result.now ≡ name_of self }
    {
        match self {
            Kernel::Encode => "encode",
            Kernel::Decode => "decode",
            Kernel::Print => "print",
            Kernel::Used => "used",
            Kernel::Member => "member",
            Kernel::Refuse => "refuse",
        }
    }

    /// What its report counts.
    pub fn counted(self) -> &'static str {
        match self {
            Kernel::Encode | Kernel::Decode | Kernel::Print | Kernel::Used => "bytes",
            Kernel::Member => "found",
            Kernel::Refuse => "refused",
        }
    }
}
