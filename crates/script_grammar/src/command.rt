// Commands, and the types of their operands.
/// A register of a process, below 16.
#[derive(Clone, Copy)]
pub struct Reg(pub u8);

/// Which part of a term is taken. Places count from 1, offsets of bytes from 0.
#[derive(Clone, Copy)]
pub enum Pick {
    /// The head of a list place.
    Hd,
    /// The tail of a list place.
    Tl,
    /// The element of a tuple at this place.
    Elem(u64),
    /// The value that a map has for the key in this register.
    MapGet(Reg),
    /// What stands at this place of a fun's environment.
    Env(u64),
    /// Bytes of a binary: their offset, and how many.
    Part(u64, u64),
}

/// What a term is repeated in.
#[derive(Clone, Copy)]
pub enum Shape {
    Tuple,
    List,
}

/// Who gets a message: a process by its number, or by the pid that a register holds.
#[derive(Clone, Copy)]
pub enum To {
    Number(u64),
    Held(Reg),
}

/// Which collection is asked for.
#[derive(Clone, Copy)]
pub enum Depth {
    Minor,
    Major,
}

/// The nodes of a term and its flat size in words.
#[derive(Clone, Copy)]
pub struct Measure {
    pub nodes: u64,
    pub flat: u64,
}

/// What a line asks for. A name is given by its number.
#[derive(Clone, Copy)]
pub enum Command {
    Nothing,
    Process(u64, Verb),
    System(SysVerb),
}

/// What a line asks of one process. The term of `Set` and the environment of `Fun` stand in the
/// code buffer.
#[derive(Clone, Copy)]
pub enum Verb {
    /// The register gets the written term.
    Set(Reg),
    /// The first register gets a part of the second's term.
    Choose(Reg, Reg, Pick),
    /// The first register gets the second's map with the third's term as a key and the fourth's as its value.
    MapPut(Reg, Reg, Reg, Reg),
    /// The register gets a binary: how many bytes, and the byte that each of them is.
    Fill(Reg, u64, u64),
    /// The register gets a fun: the number of its name, and its arity.
    Fun(Reg, u64, u64),
    /// The register gets a new reference.
    Ref(Reg),
    /// The register gets the pid of the process.
    Own(Reg),
    /// The first register gets so many times the last one's term.
    Repeat(Reg, Shape, u64, Reg),
    /// The register's term goes on the stack.
    Push(Reg),
    /// The register gets what was pushed last, which leaves the stack.
    Pop(Reg),
    /// A copy of the register's term goes last into a queue.
    Send(Reg, To),
    /// The register gets the first message, which leaves the queue.
    Recv(Reg),
    /// The queue is written.
    Queue,
    /// The register's term is written.
    Print(Reg),
    /// Whether the two registers' terms are equal is written.
    Eq(Reg, Reg),
    /// How the first register's term stands to the second's in the order of terms is written.
    Cmp(Reg, Reg),
    /// The flat size of the register's term in words is written.
    Flat(Reg),
    /// The register gets a literal: the number of its area's name, and its place there, from 1.
    Lit(Reg, u64, u64),
    /// The process is collected.
    Gc(Depth),
    /// The stack is emptied and the process swept fully.
    Hibernate,
    /// The sizes and counts of the process's heap are written.
    Info,
    /// The objects of the process's heap are written, each by place, kind and size.
    Heap,
    /// The process is gone with its queue.
    Exit,
}

/// What a line asks of the system. The terms of `Load` stand in the code buffer.
#[derive(Clone, Copy)]
pub enum SysVerb {
    /// A process more, with the next number.
    Spawn,
    /// A new literal area: the number of its name, and how many terms it has.
    Load(u64, u64),
    /// The area whose name has this number is gone; all terms stay.
    Purge(u64),
    /// Every process is swept fully.
    Sweep,
    /// The counted records are written, each with its count.
    Counts,
    /// The whole store is written.
    Dump,
    /// The live numbers are written.
    Procs,
    /// The script ends.
    Quit,
}
