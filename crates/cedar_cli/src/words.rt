//! The words of the program: which commands there are, and what each of them takes.

use clap::{Arg, ArgAction};
use std::alloc::{AllocError, Global};

/// An option of a command.
#[derive(Clone, Copy, Drop)]
struct Choice {
    /// Its name.
    name: &'static str,
    /// Its short name, if it has one.
    short: Option<char>,
    /// What comes of it where it is given.
    action: ArgAction,
    /// What is written for the value behind it; nothing for a flag.
    values: &'static [&'static str],
    /// The values that it may have; any where none are listed.
    words: &'static [&'static str],
    /// What is said of it.
    help: &'static str,
    /// The options of which one has to be there where it isn't; none of them where it may be left
    /// out.
    unless: &'static [&'static str],
    /// The options that may not be there beside it.
    against: &'static [&'static str],
    /// Whether it has to be there. One or more values stand behind it then.
    is_required: bool,
    /// Whether its values stand without its name.
    is_positional: bool,
}

/// What a command asks of the schema that files declare.
#[derive(Clone, Copy, Drop)]
pub(crate) enum Question {
    /// What it declares, in numbers.
    Build,
    /// What it declares, in lines.
    Show,
    /// A type.
    Type,
    /// The environments of requests.
    Envs,
    /// The hierarchies, drawn.
    Graph,
}

/// A command over files that are read together.
#[derive(Clone, Copy, Drop)]
pub(crate) enum FilesCommand {
    /// Reads them.
    Check,
    /// Asks something of the schema that they declare.
    Ask(Question),
    /// Writes what they declare as one fragment.
    Link,
    /// Writes each in another format.
    Translate,
    /// Lays them out.
    Format,
}

/// A command.
#[derive(Clone, Copy, Drop)]
pub(crate) enum Command {
    /// One over files that are read together.
    Files(FilesCommand),
    /// Compares two versions of a schema.
    Compare,
}

/// A command, with what is said of it.
#[derive(Clone, Copy, Drop)]
struct Row {
    /// Its name.
    name: &'static str,
    /// What it does.
    about: &'static str,
    /// An example of its use.
    example: &'static str,
    /// What it does.
    command: Command,
}

/// A flag that has no name yet.
const FLAG: Choice = Choice {
    name: "",
    short: None,
    action: ArgAction::SetTrue,
    values: &[],
    words: &[],
    help: "",
    unless: &[],
    against: &[],
    is_required: false,
    is_positional: false,
};

/// An option with one value that has no name yet.
const OPTION: Choice = Choice {
    action: ArgAction::Set,
    ..FLAG
};

/// Objects of JSON are asked for.
const JSON: Choice = Choice {
    name: "json",
    help: "Tell refusals as objects of JSON, one a line, on standard output",
    ..FLAG
};

/// The format of the files.
const INPUT: Choice = Choice {
    name: "format",
    values: &["FORMAT"],
    words: &["text", "json"],
    help: "The format of all files; else a name that ends in `.cedarschema` says text",
    ..OPTION
};

/// The files of most commands.
const FILES: Choice = Choice {
    name: "FILE",
    action: ArgAction::Append,
    help: "Files of schemas, in Cedar's syntax or its JSON format; `-` is standard input",
    is_required: true,
    is_positional: true,
    ..OPTION
};

/// The options of a command that has no others.
const PLAIN: &[Choice] = &[FILES, INPUT, JSON];

/// The options of the command that builds.
const BUILD: &[Choice] = &[
    FILES,
    INPUT,
    JSON,
    Choice {
        name: "complete",
        help: "Refuse a schema that leaves something external",
        ..FLAG
    },
];

/// The options of the command that shows types.
const TYPE: &[Choice] = &[
    FILES,
    INPUT,
    JSON,
    Choice {
        name: "entity",
        values: &["NAME"],
        help: "The entity type of which to show attributes",
        unless: &["action"],
        ..OPTION
    },
    Choice {
        name: "attribute",
        action: ArgAction::Append,
        values: &["NAME"],
        help: "An attribute; each further one a step down",
        ..OPTION
    },
    Choice {
        name: "tags",
        help: "The type of the tags, in place of that of attributes",
        against: &["attribute", "action"],
        ..FLAG
    },
    Choice {
        name: "action",
        values: &["UID"],
        help: "The action of which to show the context",
        unless: &["entity", "tags"],
        against: &["entity"],
        ..OPTION
    },
];

/// The options of the command that shows environments.
const ENVS: &[Choice] = &[
    FILES,
    INPUT,
    JSON,
    Choice {
        name: "principal",
        values: &["NAME"],
        help: "Only those of this type of principal",
        ..OPTION
    },
    Choice {
        name: "action",
        values: &["UID"],
        help: "Only those of this action",
        ..OPTION
    },
    Choice {
        name: "resource",
        values: &["NAME"],
        help: "Only those of this type of resource",
        ..OPTION
    },
];

/// The file that is written.
const OUTPUT: Choice = Choice {
    name: "output",
    short: Some('o'),
    values: &["FILE"],
    help: "Write to this file, which may be none of those read",
    ..OPTION
};

/// The options of the command that links.
const LINK: &[Choice] = &[
    FILES,
    INPUT,
    JSON,
    Choice {
        name: "to",
        values: &["FORMAT"],
        words: &["text", "json"],
        help: "Write in this format; JSON where none is given",
        ..OPTION
    },
    OUTPUT,
];

/// The options of the command that translates.
const TRANSLATE: &[Choice] = &[
    FILES,
    INPUT,
    JSON,
    Choice {
        name: "to",
        values: &["FORMAT"],
        words: &["text", "json"],
        help: "Write in this format; the other one where none is given",
        ..OPTION
    },
    OUTPUT,
];

/// The options of the command that lays out.
const FORMAT: &[Choice] = &[
    FILES,
    INPUT,
    JSON,
    Choice {
        name: "check",
        help: "Write nothing, and end with status 1 where a file differs",
        ..FLAG
    },
    Choice {
        name: "write",
        help: "Write each file over, where it differs",
        against: &["check"],
        ..FLAG
    },
];

/// The options of the command that compares.
const COMPARE: &[Choice] = &[
    Choice {
        name: "old",
        action: ArgAction::Append,
        values: &["FILE"],
        help: "The files of the old version; `-` is standard input",
        is_required: true,
        ..OPTION
    },
    Choice {
        name: "new",
        action: ArgAction::Append,
        values: &["FILE"],
        help: "The files of the new version",
        is_required: true,
        ..OPTION
    },
    INPUT,
    Choice {
        name: "all",
        help: "Show each request, in place of the first 20 of an action",
        ..FLAG
    },
    Choice {
        name: "json",
        help: "Tell all differences, or refusals, as objects of JSON, one a line",
        ..FLAG
    },
];

/// The commands, in the order in which they are listed.
const ROWS: &[Row] = &[
    Row {
        name: "check",
        about: "Reads each file as a fragment, without building",
        example: "Example: cedar_check check photos.json",
        command: Command::Files(FilesCommand::Check),
    },
    Row {
        name: "build",
        about: "Builds one schema of all files, and counts what it declares",
        example: "Example: cedar_check build photos.json",
        command: Command::Files(FilesCommand::Ask(Question::Build)),
    },
    Row {
        name: "show",
        about: "Shows what the schema declares, in sorted lines",
        example: "Example: cedar_check show photos.json",
        command: Command::Files(FilesCommand::Ask(Question::Show)),
    },
    Row {
        name: "type",
        about: "Shows the type of an entity type's attributes or tags, or of an action's context",
        example: "Example: cedar_check type photos.json --entity PhotoApp::Photo --attribute size",
        command: Command::Files(FilesCommand::Ask(Question::Type)),
    },
    Row {
        name: "envs",
        about: "Shows the environments of requests: principal, action and resource",
        example: "Example: cedar_check envs photos.json --principal PhotoApp::User",
        command: Command::Files(FilesCommand::Ask(Question::Envs)),
    },
    Row {
        name: "graph",
        about: "Draws the hierarchies as a graph in Graphviz DOT",
        example: "Example: cedar_check graph photos.json | dot -Tsvg > photos.svg",
        command: Command::Files(FilesCommand::Ask(Question::Graph)),
    },
    Row {
        name: "link",
        about: "Writes what all files declare together as one fragment",
        example: "Example: cedar_check link photos.json printing.json -o whole.json",
        command: Command::Files(FilesCommand::Link),
    },
    Row {
        name: "translate",
        about: "Writes a file in the other format, or each of several beside itself",
        example: "Example: cedar_check translate photos.json -o photos.cedarschema",
        command: Command::Files(FilesCommand::Translate),
    },
    Row {
        name: "format",
        about: "Lays files out, with all that they say",
        example: "Example: cedar_check format photos.json photos.cedarschema --write",
        command: Command::Files(FilesCommand::Format),
    },
    Row {
        name: "compare",
        about: "Compares two versions of a schema: what the new one takes away, and what it adds",
        example: "Example: cedar_check compare --old photos.json --new photos_next.json",
        command: Command::Compare,
    },
];

impl Question {
    /// The files of which it is asked, and the options.
    fn choices(self) -> &'static [Choice] {
        match self {
            Question::Build => BUILD,
            Question::Show | Question::Graph => PLAIN,
            Question::Type => TYPE,
            Question::Envs => ENVS,
        }
    }
}

impl Command {
    /// The files that are read, unless options name them, and the options.
    fn choices(self) -> &'static [Choice] {
        match self {
            Command::Files(FilesCommand::Check) => PLAIN,
            Command::Files(FilesCommand::Ask(question)) => question.choices(),
            Command::Files(FilesCommand::Link) => LINK,
            Command::Files(FilesCommand::Translate) => TRANSLATE,
            Command::Files(FilesCommand::Format) => FORMAT,
            Command::Compare => COMPARE,
        }
    }

    /// The command of a name, if it is one.
    pub(crate) fn named(name: &str) -> Option<Self> {
        for row in ROWS {
            if row.name == name {
                return Some(row.command);
            }
        }
        None
    }
}

/// A row of a table, which says something of the program's words.
trait Says<T> {
    /// What it says.
    fn said(&self, alloc: Global) -> Result<T, AllocError>;
}

/// What each row of a table says.
fn all<T: Drop, R: Says<T>>(alloc: Global, rows: &[R]) -> Result<Vec<T>, AllocError> {
    let mut all = Vec::new(alloc);
    for row in rows {
        all.push(row.said(alloc)?)?;
    }
    Ok(all)
}

/// An argument, as far as each has it.
fn named<'a>(alloc: Global, choice: &Choice) -> Arg<'a> {
    Arg::new(alloc, choice.name)
        .action(choice.action)
        .value_names(choice.values)
        .help(choice.help)
        .required(choice.is_required)
}

/// An argument of a row.
fn spelled<'a>(alloc: Global, choice: &Choice) -> Arg<'a> {
    let mut option = named(alloc, choice);
    if choice.is_positional {
        return option;
    }
    if let Some(short) = choice.short {
        option = option.short(short);
    }
    if choice.is_required {
        option = option.num_args(1usize..);
    }
    if !choice.words.is_empty() {
        option = option.value_parser(choice.words);
    }
    option.long(choice.name)
}

impl<'a> Says<Arg<'a>> for Choice {
    fn said(&self, alloc: Global) -> Result<Arg<'a>, AllocError> {
        spelled(alloc, self)
            .required_unless_present_any(self.unless)?
            .conflicts_with_all(self.against)
    }
}

/// The command of a row, with what it takes.
fn command_of<'a>(
    alloc: Global,
    row: &Row,
    args: Vec<Arg<'a>>,
) -> Result<clap::Command<'a>, AllocError> {
    clap::Command::new(alloc, row.name)
        .about(row.about)
        .after_help(row.example)
        .args(args)
}

impl<'a> Says<clap::Command<'a>> for Row {
    fn said(&self, alloc: Global) -> Result<clap::Command<'a>, AllocError> {
        command_of(alloc, self, all(alloc, self.command.choices())?)
    }
}

/// The program, with its commands.
fn with_commands<'a>(
    alloc: Global,
    commands: Vec<clap::Command<'a>>,
) -> Result<clap::Command<'a>, AllocError> {
    clap::Command::new(alloc, "cedar_check")
        .version("0.1.0")
        .about("Reads, builds, shows, translates and compares schemas of the Cedar policy language")
        .subcommand_required(true)
        .subcommands(commands)
}

/// The program's words.
pub(crate) fn program<'a>(alloc: Global) -> Result<clap::Command<'a>, AllocError> {
    with_commands(alloc, all(alloc, ROWS)?)
}
