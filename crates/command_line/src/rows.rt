//! The options and operands of each command: a row each.
//!
//! `parser` makes the parser from these rows, `arguments` refuses options that do not go
//! together as they say, and completions/write.py makes the completions and the synopses of the
//! pages from them.
ghost use Rattle.std.specs.Prelude.{◌≡◌, map};
ghost use Rattle.command_line.specs.CommandLine.{arguments_of, row_of};

/// What a row is about.
#[derive(Clone, Copy, Debug, Drop)]
pub enum ArgumentKind {
    /// An option without a value.
    Flag,
    /// An option with as many values as its row names.
    Valued,
    /// A word that is no option.
    Operand,
    /// Any number of such words.
    Operands,
}

/// Another argument, and what is said if the two do not go together.
#[derive(Clone, Copy, Debug, Drop)]
pub struct Conflict {
    /// The name of the other argument.
    pub other: &'static str,
    /// What is wrong with the command line.
    pub message: &'static str,
}

/// An option or an operand of a command.
#[derive(Clone, Copy, Debug, Drop)]
pub struct Argument {
    /// Its name, which an option has after `--`.
    pub name: &'static str,
    /// What it is.
    pub kind: ArgumentKind,
    /// What the help calls its values.
    pub values: &'static [&'static str],
    /// What the help says of it.
    pub help: &'static str,
    /// Whether it has to be given.
    pub is_required: bool,
    /// The value of one that is not given, if it has one then.
    pub default: &'static str,
    /// The flag that may not be given beside it.
    pub excluded_by: Option<Conflict>,
    /// The option with a value that may not be given beside it, since one of them is enough.
    pub instead_of: Option<Conflict>,
    /// The option with a value that has to be given beside it.
    pub needs: Option<Conflict>,
}

/// Any argument without a name: it may be given beside all others.
const ANY: Argument = Argument {
    name: "",
    kind: ArgumentKind::Flag,
    values: &[],
    help: "",
    is_required: false,
    default: "",
    excluded_by: None,
    instead_of: None,
    needs: None,
};

/// A row: the kind, the name, the names of the values and the help, and then the fields that differ
/// from `ANY`.
macro_rules! row {
    ($kind:ident $name:literal $values:tt: $help:literal $(, $field:ident: $value:expr)*) => {
        Argument {
            name: $name,
            kind: ArgumentKind::$kind,
            values: &$values,
            help: $help,
            $($field: $value,)*
            ..ANY
        }
    };
}

/// The name of another argument, and what is said if the two do not go together.
macro_rules! conflict {
    ($other:literal, $message:expr) => {
        Some(Conflict { other: $other, message: $message })
    };
}

// what is said of arguments that do not go together
const SYMBOLS_HAVE_MODULES: &str =
    "--modules-from-symbols cannot be used with --modules or --regions";

const REGIONS_NEED_MODULES: &str = "--regions needs --modules";

const SYMBOLS_TWICE: &str = "--kallsyms and FILE exclude each other";

const HISTORY_HAS_LISTINGS: &str =
    "--history cannot be used with --kallsyms, --modules or --regions";

const HISTORY_OR_FILE: &str = "--history and FILE exclude each other";

const AT_NEEDS_HISTORY: &str = "--at needs --history";

const HISTORY_OR_FOLLOW: &str = "--history and --follow exclude each other";

const CALLERS_OR_EXACT: &str = "--callers and --exact exclude each other";

/// The modules come from the symbols, so none are listed.
const FROM_SYMBOLS: Option<Conflict> = conflict!("modules-from-symbols", SYMBOLS_HAVE_MODULES);

const NEEDS_MODULES: Option<Conflict> = conflict!("modules", REGIONS_NEED_MODULES);

/// A word that is no option names the listing of symbols.
const INSTEAD_OF_KALLSYMS: Option<Conflict> = conflict!("kallsyms", SYMBOLS_TWICE);

/// A history has the listings, so none are named.
const FROM_HISTORY: Option<Conflict> = conflict!("history", HISTORY_HAS_LISTINGS);

/// A word that is no option names a listing of symbols as well.
const INSTEAD_OF_LISTING: Option<Conflict> = conflict!("listing", HISTORY_OR_FILE);

/// A history is read once, so it is not followed.
const NOT_BY_HISTORY: Option<Conflict> = conflict!("history", HISTORY_OR_FOLLOW);

const NEEDS_HISTORY: Option<Conflict> = conflict!("history", AT_NEEDS_HISTORY);

const NOT_EXACT: Option<Conflict> = conflict!("exact", CALLERS_OR_EXACT);

/// Rows of several commands, or with a default.
const MODULES: Argument = row!(Valued "modules" ["FILE"]:
    "The modules, in the form of /proc/modules; without it they come from the symbols",
    excluded_by: FROM_SYMBOLS, instead_of: FROM_HISTORY);

pub const KALLSYMS: Argument = row!(Valued "kallsyms" ["FILE"]:
    "The symbols, instead of /proc/kallsyms",
    default: "/proc/kallsyms", instead_of: FROM_HISTORY);

const REGIONS: Argument = row!(Valued "regions" ["FILE"]:
    "The regions of modules that have more than one",
    excluded_by: FROM_SYMBOLS, instead_of: FROM_HISTORY, needs: NEEDS_MODULES);

const KERNEL: Argument = row!(Valued "kernel" ["START", "END"]:
    "The first and the last symbol of the kernel, instead of the usual ones");

const HISTORY: Argument = row!(Valued "history" ["FILE"]:
    "The listings of one boot with their times, instead of /proc/kallsyms; - is standard input",
    instead_of: INSTEAD_OF_LISTING);

const AT: Argument = row!(Valued "at" ["TIME"]:
    "Use the listing at TIME, in seconds as in a log, instead of the last one",
    needs: NEEDS_HISTORY);

const OFFSET: Argument = row!(Valued "offset" ["N"]:
    "Subtract N from each address, as for a kernel moved up by N at boot");

pub const LOG: Argument = row!(Operand "log" ["LOG"]:
    "The log to annotate; standard input if - or omitted", default: "-");

const LOOKUP: &[Argument] = &[
    MODULES,
    KALLSYMS,
    REGIONS,
    KERNEL,
    HISTORY,
    AT,
    row!(Flag "modules-from-symbols" []:
        "Find the modules from their symbols, as without --modules"),
    row!(Valued "addresses" ["FILE"]: "More addresses, one per line; - is standard input"),
    row!(Flag "callers" []: "Take the addresses as return addresses, and name the callers"),
    OFFSET,
    row!(Flag "json" []: "Write answers and counts as JSON, one object per line"),
    row!(Flag "no-counts" []: "Leave out the counts"),
    row!(Operands "address" ["ADDR"]:
        "The addresses: 16 hexadecimal digits, hexadecimal after 0x, or decimal"),
];

const RUN: &[Argument] = &[
    row!(Valued "modules" ["FILE"]: "The modules, in the form of /proc/modules", is_required: true),
    row!(Valued "kallsyms" ["FILE"]:
        "The symbols, in the form of /proc/kallsyms", is_required: true),
    REGIONS,
    row!(Valued "kernel" ["START", "END"]:
        "The first and the last symbol of the kernel, instead of _stext and _end"),
    row!(Valued "readers" ["N"]: "How many readers there are, 1 to 64", is_required: true),
    row!(Operand "script" ["SCRIPT"]:
        "What each writer and reader does; - is standard input", is_required: true),
];

const ANNOTATE: &[Argument] = &[
    KALLSYMS,
    MODULES,
    REGIONS,
    KERNEL,
    HISTORY,
    row!(Valued "at" ["TIME"]:
        "Take TIME, in seconds, for the time of every line, instead of its own",
        needs: NEEDS_HISTORY),
    row!(Flag "callers" []:
        "Take every address as a return address, not only where its place in the line says so",
        excluded_by: NOT_EXACT),
    row!(Flag "exact" []: "Take no address as a return address"),
    row!(Valued "offset" ["N"]: "\
Subtract N from each address, as for a kernel moved up by N at boot; auto takes N from the log"),
    row!(Flag "follow" []:
        "Read the listings again as the log grows, for modules loaded meanwhile",
        instead_of: NOT_BY_HISTORY),
    LOG,
];

const CHECK: &[Argument] = &[
    MODULES,
    KALLSYMS,
    REGIONS,
    KERNEL,
    HISTORY,
    AT,
    row!(Operand "listing" ["FILE"]: "The symbols, as after --kallsyms",
        instead_of: INSTEAD_OF_KALLSYMS),
];

const ADDRESS: &[Argument] = &[
    KALLSYMS,
    MODULES,
    REGIONS,
    KERNEL,
    HISTORY,
    AT,
    row!(Valued "offset" ["N"]: "Add N to each address, as for a kernel moved up by N at boot"),
    row!(Flag "json" []: "Write JSON, one object per line"),
    row!(Flag "no-counts" []: "Accepted for compatibility with lookup; has no effect"),
    row!(Operands "name" ["NAME"]: "\
SYMBOL, SYMBOL+0xOFFSET or SYMBOL+0xOFFSET/0xSIZE; of one module after MODULE: or before \
' [MODULE]', of the kernel after -:", is_required: true),
];

const RECORD: &[Argument] = &[
    KALLSYMS,
    row!(Flag "append" []: "Append to a history: leave its first line out"),
    row!(Operand "events" ["EVENTS"]:
        "What ftrace writes of modules and of marks; - is standard input", is_required: true),
];

const TRACE: &[Argument] = &[
    row!(Flag "steps" []: "Write what each step did instead, as JSON, one object per line"),
    row!(Operand "file" ["FILE"]: "The trace", is_required: true),
];

/// The rows of the command of this name, in the order of its help.
pub fn arguments_of(name: &str) -> &'static [Argument]
    ensures { map row_of result.now ≡ arguments_of name.now }
{
    match name {
        "lookup" => LOOKUP,
        "run" => RUN,
        "annotate" => ANNOTATE,
        "check" => CHECK,
        "address" => ADDRESS,
        "record" => RECORD,
        "trace" => TRACE,
        _ => &[],
    }
}
