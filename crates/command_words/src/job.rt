//! The jobs that words may ask for.
use std::alloc::AllocError;
use wide_fraction::Limits;

/// What a search is asked: the value of `--request`, the limits of `--nodes` and `--bits`, and the CONFIG words in
/// their order.
#[derive(Debug, Drop)]
pub struct Search {
    /// The request file.
    pub request: String,
    /// How many entries a tree may have, and how long a number may be.
    pub limits: Limits,
    /// The files of the configurations.
    pub configs: Vec<String>,
}

/// What one step of an order of changes is: the value of `--by`.
#[derive(Clone, Copy, Debug, PartialEq, Eq)]
pub enum StepUnit {
    /// One cost line.
    Line,
    /// All cost lines of one router.
    Router,
}

/// The commands.
#[derive(Clone, Copy, Debug, PartialEq, Eq)]
pub enum CommandName {
    Design,
    Check,
    Audit,
    Rewrite,
    Trial,
    Conflict,
    Spread,
    Total,
    Change,
    Steps,
    Compare,
    Lsas,
    Route,
    Help,
    Version,
}

/// What the words ask for: the values of the options, the CONFIG words in their order, and the stated defaults.
///
/// Texts are names of files: `request` is that of `--request`, `answer` that of `--answer`, `sets` that of `--sets`,
/// `live` that of `--live`, `lsas` that of `--lsas`; `config` and `configs` are the CONFIG words.
#[derive(Debug, Drop)]
pub enum Job {
    /// Find costs, or evidence that there are none.
    Design(Search),
    /// Check an answer's evidence.
    Check {
        request: String,
        answer: String,
        configs: Vec<String>,
    },
    /// Report the wanted paths at present costs, or at those of the running area where `--live` names its database.
    Audit {
        request: String,
        live: Option<String>,
        configs: Vec<String>,
    },
    /// Write a configuration with an answer's costs.
    Rewrite {
        answer: String,
        config: String,
    },
    /// Make a trial of so many blocks, 1 to 125, whose sides are chosen by numbers from `start` on, and design it.
    Trial {
        blocks: u32,
        start: u32,
    },
    /// Find a least conflict among the requests.
    Conflict(Search),
    /// Find costs that spread traffic over exactly the listed paths.
    Spread {
        search: Search,
        sets: String,
    },
    /// Find the least total among the best costs.
    Total(Search),
    /// Find the fewest changes of present costs.
    Change(Search),
    /// Find an order of an answer's changes that keeps traffic in place; at most `nodes` states are tested, 1 to
    /// 10,000,000.
    Steps {
        request: String,
        answer: String,
        nodes: u32,
        by: StepUnit,
        configs: Vec<String>,
    },
    /// Tell where the database of the running area differs from the configurations.
    Compare {
        live: String,
        request: String,
        configs: Vec<String>,
    },
    /// Write the LSAs of the configurations at present costs (RFC 2328, A.4).
    Lsas {
        request: String,
        configs: Vec<String>,
    },
    /// Report the route between two routers, named by their router IDs, in a file of LSAs.
    Route {
        lsas: String,
        from: u32,
        to: u32,
    },
    /// Tell what the commands do, or what one of them does.
    Help(Option<CommandName>),
    /// Tell the program's version.
    Version,
}

/// Why no job was read.
#[derive(Clone, Copy, Debug, PartialEq, Eq)]
pub enum WordsStop {
    /// The words are off the command table.
    Refused,
    /// Memory ran out.
    OutOfMemory,
}

impl From<AllocError> for WordsStop {
    ghost use Rattle.std.specs.Prelude.{◌≡◌};
    ghost use Rattle.command_words.specs.declared.job.WordsStop.TheVariants.{OutOfMemory};

    ghost from_gives = { λ error stop. stop ≡ OutOfMemory };

    fn from(_error: AllocError) -> WordsStop {
        WordsStop::OutOfMemory
    }
}
