//! The commands of the program: of each its name, its arguments, and what its help says.

ghost use Rattle.std.specs.Prelude.{◌≡◌, ◌≢◌, MatchOption, map};
ghost use Rattle.tigertopo_words.specs.Commands.{commands, name_of, row_of};
ghost use Rattle.tigertopo_words.specs.Keeping.{named_among, row_given, rule_for};
ghost use Rattle.tigertopo_words.specs.declared.table.Named.{Named};
ghost use Rattle.tigertopo_words.specs.declared.table.Row.{Row};

use crate::placeholder::Placeholder;
use std::fmt;

/// A command of the program, by its place among [`rows`].
#[derive(Clone, Copy)]
pub enum Named {
    Show,
    Landmarks,
    Locate,
    Audit,
    Build,
    Check,
    Convert,
    Export,
    Draw,
    Border,
}

/// How an argument is written.
#[derive(Clone, Copy)]
pub enum Kind {
    /// An option with no word, which is on where it is given.
    Switch,
    /// An option with a word, which this stands for.
    Value(Placeholder),
    /// An option with a word, which has to be given.
    Needed(Placeholder),
    /// A word by its place, which has to be given.
    Placed(Placeholder),
    /// One word or more, behind all others.
    Several(Placeholder),
}

/// An argument of a command.
#[derive(Clone, Copy)]
pub struct Argument {
    /// What `clap` calls it, which an option is written by.
    pub name: &'static str,
    pub kind: Kind,
    pub help: &'static str,
}

impl fmt::Display for Argument {
    fn fmt<W: fmt::Write>(&self, f: &mut fmt::Formatter<W>) -> fmt::Result {
        let name = self.name;
        match self.kind {
            Kind::Switch => write!(f, "--{name}"),
            Kind::Value(word) | Kind::Needed(word) => write!(f, "--{name} <{word}>"),
            Kind::Placed(word) | Kind::Several(word) => write!(f, "<{word}>"),
        }
    }
}

/// A command with what is said of it.
#[derive(Clone, Copy)]
pub struct Row {
    pub named: Named,
    pub name: &'static str,
    /// What it does, in a line.
    pub about: &'static str,
    /// Arguments that are given only beside another one, each with that, in the order in which they are refused.
    pub needs: &'static [(Argument, Argument)],
    /// In the order of its help.
    pub arguments: &'static [Argument],
}

// All commands, in the order of the program's help.
static COMMANDS: [Row; 10] = [
    Row {
        named: Named::Show,
        name: "show",
        about: "Prints the TLID and the points of each chain, by rising TLID, and then their counts",
        needs: &[],
        arguments: &[JOIN, RELEASED, FILES],
    },
    Row {
        named: Named::Landmarks,
        name: "landmarks",
        about: "Prints each landmark with its polygons, in the order of the landmarks' first records",
        needs: &[],
        arguments: &[RELEASED, FILES],
    },
    Row {
        named: Named::Locate,
        name: "locate",
        about: "Tells where a point lies: on which chain, or in which polygons and landmarks",
        needs: &[],
        arguments: &[JOIN, RELEASED, POINT, FILES],
    },
    Row {
        named: Named::Audit,
        name: "audit",
        about: "Decides whether the map is sound, with no certificate given",
        needs: &[(MOST, ALL), (SKIP_REFUSED, ALL)],
        arguments: &[
            ALL,
            MOST,
            SKIP_REFUSED,
            WHERE,
            JSON,
            FAULTS_MADE,
            PROGRESS,
            COMPLETE,
            FACES,
            ZERO_CELLS,
            JOIN,
            RELEASED,
            FILES,
        ],
    },
    Row {
        named: Named::Build,
        name: "build",
        about: "Makes a certificate of a sound map, in version 2",
        needs: &[],
        arguments: &[
            CERT_BUILT, PROGRESS, COMPLETE, FACES, ZERO_CELLS, JOIN, RELEASED, FILES,
        ],
    },
    Row {
        named: Named::Check,
        name: "check",
        about: "Decides by a certificate whether the map is sound",
        needs: &[],
        arguments: &[
            CERT, TESTS, PROGRESS, COMPLETE, FACES, ZERO_CELLS, JOIN, RELEASED, FILES,
        ],
    },
    Row {
        named: Named::Convert,
        name: "convert",
        about: "Reads a certificate and writes it in version 2",
        needs: &[],
        arguments: &[CERT_READ, CERT_WRITTEN],
    },
    Row {
        named: Named::Export,
        name: "export",
        about: "Writes the map as GeoJSON",
        needs: &[],
        arguments: &[COLLECTION_MADE, LAYER, JOIN, RELEASED, FILES],
    },
    Row {
        named: Named::Draw,
        name: "draw",
        about: "Draws the map as a picture for a browser",
        needs: &[(FACES_DRAWN, FAULTS), (AT, WIDTH), (WIDTH, AT)],
        arguments: &[
            PICTURE_MADE,
            AT,
            WIDTH,
            FAULTS,
            FACES_DRAWN,
            ZERO_CELLS,
            JOIN,
            RELEASED,
            FILES,
        ],
    },
    Row {
        named: Named::Border,
        name: "border",
        about: "Writes the records of the border of a sound map whose faces agree",
        needs: &[],
        arguments: &[NAME, BORDER_MADE, COMPLETE, JOIN, RELEASED, FILES],
    },
];

const ALL: Argument = Argument {
    name: "all",
    kind: Kind::Switch,
    help: "Tells each fault, or each line that is refused, and how many there are",
};

const MOST: Argument = Argument {
    name: "most",
    kind: Kind::Value(Placeholder::Number),
    help: "Tells the first N of them, and how many there are; needs --all",
};

const SKIP_REFUSED: Argument = Argument {
    name: "skip-refused",
    kind: Kind::Switch,
    help: "Tells the faults of the records that are left where lines are refused; needs --all",
};

const WHERE: Argument = Argument {
    name: "where",
    kind: Kind::Switch,
    help: "Tells behind each fault in which lines of which files its records stand",
};

const JSON: Argument = Argument {
    name: "json",
    kind: Kind::Switch,
    help: "Tells each fault, or each line that is refused, as an object of JSON, with its records",
};

const FAULTS_MADE: Argument = Argument {
    name: "geojson",
    kind: Kind::Value(Placeholder::Out),
    help: "The file of GeoJSON that is made of faults and refused lines",
};

const PROGRESS: Argument = Argument {
    name: "progress",
    kind: Kind::Switch,
    help: "Shows how far reading is, once a second, where the error output is a terminal",
};

const COMPLETE: Argument = Argument {
    name: "complete",
    kind: Kind::Switch,
    help: "Asks too that there are records of each of the types 1, I and P",
};

const FACES: Argument = Argument {
    name: "faces",
    kind: Kind::Switch,
    help: "Asks too that sides that face one another name one polygon",
};

const ZERO_CELLS: Argument = Argument {
    name: "zero-cells",
    kind: Kind::Switch,
    help: "Reads zero-cell ids of type I lines, TZIDS in 21-30 and TZIDE in 31-40, and tests that they agree",
};

const JOIN: Argument = Argument {
    name: "join",
    kind: Kind::Switch,
    help: "Takes a chain that two counties tell, each with its own side, for one; landmarks are left out",
};

const RELEASED: Argument = Argument {
    name: "released",
    kind: Kind::Switch,
    help: "Reads type I lines by the columns of the released files, FILE in 6-10 and TLID in 11-20",
};

const FILES: Argument = Argument {
    name: "files",
    kind: Kind::Several(Placeholder::Files),
    help: "Record files, which are read one after the other as one text",
};

const POINT: Argument = Argument {
    name: "point",
    kind: Kind::Placed(Placeholder::Point),
    help: "The point, in millionths of a degree or in degrees",
};

const CERT_BUILT: Argument = Argument {
    name: "out",
    kind: Kind::Needed(Placeholder::Cert),
    help: "The certificate that is made",
};

const CERT: Argument = Argument {
    name: "cert",
    kind: Kind::Needed(Placeholder::Cert),
    help: "The certificate",
};

const TESTS: Argument = Argument {
    name: "tests",
    kind: Kind::Value(Placeholder::Number),
    help: "Stops where more than N pairs of segments would have to be tested",
};

const CERT_READ: Argument = Argument {
    name: "cert",
    kind: Kind::Placed(Placeholder::Cert),
    help: "The certificate that is read",
};

const CERT_WRITTEN: Argument = Argument {
    name: "out",
    kind: Kind::Placed(Placeholder::Out),
    help: "The certificate that is made",
};

const COLLECTION_MADE: Argument = Argument {
    name: "geojson",
    kind: Kind::Needed(Placeholder::Out),
    help: "The file of GeoJSON that is made",
};

const LAYER: Argument = Argument {
    name: "layer",
    kind: Kind::Value(Placeholder::Layer),
    help: "Writes features of one kind alone: chains, points, polygons or landmarks",
};

const PICTURE_MADE: Argument = Argument {
    name: "out",
    kind: Kind::Needed(Placeholder::Out),
    help: "The picture that is made",
};

const AT: Argument = Argument {
    name: "at",
    kind: Kind::Value(Placeholder::Point),
    help: "The middle of what is drawn, in millionths of a degree or in degrees; needs --width",
};

const WIDTH: Argument = Argument {
    name: "width",
    kind: Kind::Value(Placeholder::Width),
    help: "How wide and how high that is, in millionths of a degree; needs --at",
};

const FAULTS: Argument = Argument {
    name: "faults",
    kind: Kind::Switch,
    help: "Draws the faults too",
};

const FACES_DRAWN: Argument = Argument {
    name: "faces",
    kind: Kind::Switch,
    help: "Draws too where sides that face one another don't name one polygon; needs --faults",
};

const NAME: Argument = Argument {
    name: "name",
    kind: Kind::Needed(Placeholder::Name),
    help: "The name of the border's polygon",
};

const BORDER_MADE: Argument = Argument {
    name: "out",
    kind: Kind::Needed(Placeholder::Out),
    help: "The border that is made",
};

/// All commands, in the order of the program's help.
pub fn rows() -> &'static [Row]
    ensures given { map row_given result.now ≡ map row_of commands }
    ensures names { map (λ (row : Row). row.name.now) result.now ≡ map name_of commands }
    ensures own { map (λ (row : Row). row.name.now) result.now ≡ map (λ (row : Row). name_of row.named) result.now }
{
    &COMMANDS
}

/// What is said of the command.
pub fn row_of(named: &Named) -> &'static Row
    ensures name { result.now.name.now ≡ name_of named.now }
    ensures arguments { map rule_for result.now.arguments.now ≡ (row_of named.now).1 }
{
    &COMMANDS[*named as usize]
}

/// The command of this name, where that is one of the program's.
pub fn named_by(name: &str) -> Option<Named>
    ensures { MatchOption result ((named : Named) → name.now ≢ name_of named) (λ named. name.now ≡ name_of named) }
{
    named_among(name, rows())
}

// The command of this name, where one of these has it.
fn named_among(name: &str, rows: &[Row]) -> Option<Named>
    ensures { result ≡ named_among name.now rows.now }
{
    for row in rows {
        if name == row.name {
            return Some(row.named);
        }
    }
    None
}
