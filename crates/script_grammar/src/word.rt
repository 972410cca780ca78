// The words of the verbs.
/// The words of the verbs of a process, built or not. `Own` is written `self`.
#[derive(Clone, Copy)]
pub enum Word {
    Set,
    Hd,
    Tl,
    Elem,
    MapGet,
    MapPut,
    Part,
    Fill,
    Fun,
    Env,
    Ref,
    Own,
    MkTuple,
    MkList,
    Push,
    Pop,
    Send,
    Recv,
    Queue,
    Print,
    Eq,
    Cmp,
    Flat,
    Lit,
    Gc,
    Hibernate,
    Info,
    Heap,
    Exit,
}

/// The words of the verbs of the system, built or not.
#[derive(Clone, Copy)]
pub enum SysWord {
    Spawn,
    Load,
    Purge,
    Sweep,
    Counts,
    Dump,
    Procs,
    Quit,
}
