/// What the words say, with the names of files as they are kept.
#[derive(Clone, Copy)]
pub enum Request<N> {
    Check(Check<N>),
    Run(Run<N>),
    Sim(Sim<N>),
    Schedule(Schedule<N>),
    Opt(Opt<N>),
    Verilog(Verilog<N>),
    Ir(Ir<N>),
    Gen(Gen),
}

/// `check FILE [--top NAME]`
#[derive(Clone, Copy)]
pub struct Check<N> {
    pub design: N,
    /// The name of the top proc, which is the last one by default.
    pub top: Option<N>,
}

/// `run FILE INPUTS --activations N [--workers W] [--depth D] [--from F] [--top NAME]`
#[derive(Clone, Copy)]
pub struct Run<N> {
    pub design: N,
    pub inputs: N,
    /// The name of the top proc, which is the last one by default; an IR text names its top itself.
    pub top: Option<N>,
    pub how: How,
}

/// How a run goes.
#[derive(Clone, Copy, PartialEq, Eq)]
pub struct How {
    /// How many activations each proc may make: 1 to 1,048,576.
    pub activations: u32,
    /// How many threads make them: 1 to 16.
    pub workers: u32,
    /// What replaces the depth of each inner channel: 1 to 4,096.
    pub depth: Option<u32>,
    pub source: Source,
}

/// What a file is written in.
#[derive(Clone, Copy, Debug, PartialEq, Eq)]
pub enum Source {
    Dslx,
    Ir,
}

/// `sim FILE ROWS`
#[derive(Clone, Copy)]
pub struct Sim<N> {
    pub design: N,
    pub rows: N,
}

/// `ir FILE [--top NAME]`
#[derive(Clone, Copy)]
pub struct Ir<N> {
    pub design: N,
    /// The name of the top proc, which is the last one by default.
    pub top: Option<N>,
}

/// `schedule FILE --clock PS [--stages N] [--ii N] [--from F] [--top NAME]`
#[derive(Clone, Copy)]
pub struct Schedule<N> {
    pub design: N,
    /// The name of the top proc, which is the last one by default; an IR text names its top itself.
    pub top: Option<N>,
    pub timing: Timing,
    pub source: Source,
}

/// `opt FILE [--from F] [--top NAME]`
#[derive(Clone, Copy)]
pub struct Opt<N> {
    pub design: N,
    /// The name of the top proc, which is the last one by default; an IR text names its top itself.
    pub top: Option<N>,
    pub source: Source,
}

/// `verilog FILE --clock PS [--stages N] [--ii N] [--depth D] [--from F] [--top NAME]`
#[derive(Clone, Copy)]
pub struct Verilog<N> {
    pub design: N,
    /// The name of the top proc, which is the last one by default; an IR text names its top itself.
    pub top: Option<N>,
    pub timing: Timing,
    /// What replaces the depth of each inner channel: 1 to 4,096.
    pub depth: Option<u32>,
    pub source: Source,
}

/// `gen --seed S --procs K`
#[derive(Clone, Copy, PartialEq, Eq)]
pub struct Gen {
    /// What the design is made from: 0 to 2,147,483,647.
    pub seed: u32,
    /// How many procs stand in the chain below the top: 1 to 255.
    pub procs: u32,
}

/// What a pipeline must keep to.
#[derive(Clone, Copy, PartialEq, Eq)]
pub struct Timing {
    /// How many picoseconds a cycle has: 1 to 1,000,000.
    pub clock: u32,
    /// How many stages there are at most: 1 to 64.
    pub stages: u32,
    /// How many cycles there are at most from the beginning of an activation to that of the next: 1 to 64.
    pub interval: u32,
}
