//! Why reading stops.

use crate::refusal::Refusal;
use std::fmt;

/// The fields that are read, by the names of the TIGER/Line technical documentation.
#[derive(Clone, Copy, PartialEq, Eq)]
pub enum Field {
    Tlid,
    FrLong,
    FrLat,
    ToLong,
    ToLat,
    Rtsq,
    /// The longitude of the shape pair with this number, from 1.
    Long(u8),
    /// The latitude of the shape pair with this number, from 1.
    Lat(u8),
    Tzids,
    Tzide,
    CenidL,
    PolyidL,
    CenidR,
    PolyidR,
    Cenid,
    Polyid,
    PolyLong,
    PolyLat,
    Land,
    LaLong,
    LaLat,
}

impl Field {
    ghost use Rattle.std.specs.Prelude.{◌≡◌, ◌≤◌, length};
    ghost use Rattle.tl_record.specs.Messages.{field_word, pair_of};

    /// The field's name, without the number of a shape pair.
    pub fn word(&self) -> &'static str
        ensures word { result.now ≡ field_word self.now }
        ensures room { length result.now ≤ 8 }
    {
        match self {
            Field::Tlid => "TLID",
            Field::FrLong => "FRLONG",
            Field::FrLat => "FRLAT",
            Field::ToLong => "TOLONG",
            Field::ToLat => "TOLAT",
            Field::Rtsq => "RTSQ",
            Field::Long(_) => "LONG",
            Field::Lat(_) => "LAT",
            Field::Tzids => "TZIDS",
            Field::Tzide => "TZIDE",
            Field::CenidL => "CENIDL",
            Field::PolyidL => "POLYIDL",
            Field::CenidR => "CENIDR",
            Field::PolyidR => "POLYIDR",
            Field::Cenid => "CENID",
            Field::Polyid => "POLYID",
            Field::PolyLong => "POLYLONG",
            Field::PolyLat => "POLYLAT",
            Field::Land => "LAND",
            Field::LaLong => "LALONG",
            Field::LaLat => "LALAT",
        }
    }

    /// The number of the shape pair, where the field is of one: the field's name ends in it.
    pub fn pair(&self) -> Option<u8>
        ensures { result ≡ pair_of self.now }
    {
        match self {
            Field::Long(pair) | Field::Lat(pair) => Some(*pair),
            _ => None,
        }
    }
}

impl fmt::Display for Field {
    ghost use Rattle.std.specs.Prelude.{Some};
    ghost use Rattle.tl_record.specs.Messages.{field_text};

    ghost output = { λ field. Some (field_text field) };

    fn fmt<W: fmt::Write>(&self, f: &mut fmt::Formatter<W>) -> fmt::Result {
        f.write_str(self.word())?;
        match self.pair() {
            Some(pair) => write!(f, "{pair}"),
            None => Ok(()),
        }
    }
}

/// As it is printed.
impl fmt::Debug for Field {
    fn fmt<W: fmt::Write>(&self, f: &mut fmt::Formatter<W>) -> fmt::Result {
        fmt::Display::fmt(self, f)
    }
}

/// Why a line is refused.
#[derive(Clone, Copy, PartialEq, Eq)]
pub enum Cause {
    /// L1: more than 1,024 bytes stand before the line's end.
    LineTooLong,
    /// L2: a field that has to be given is blank.
    Missing(Field),
    /// L3: the bytes don't spell what the field holds.
    BadField(Field),
    /// L4: a longitude or a latitude lies outside its limits.
    OutOfRange(Field),
    /// L5: the line's number is above 67,108,864.
    TooManyLines,
}

/// What a refusal says. Each text that tells of one is made of this.
#[derive(Clone, Copy)]
pub struct CauseRow {
    /// As `L2`.
    pub code: &'static str,
    /// As `Missing`.
    pub name: &'static str,
    /// The field that it is about, if it is about one.
    pub field: Option<Field>,
}

impl Cause {
    ghost use Rattle.std.specs.Prelude.{◌≡◌};
    ghost use Rattle.tl_record.specs.Messages.{cause_row};

    /// What a refusal for this cause says.
    pub fn row(&self) -> CauseRow
        ensures { (result.code.now, result.name.now, result.field) ≡ cause_row self.now }
    {
        let (code, name, field) = match *self {
            Cause::LineTooLong => ("L1", "LineTooLong", None),
            Cause::Missing(field) => ("L2", "Missing", Some(field)),
            Cause::BadField(field) => ("L3", "BadField", Some(field)),
            Cause::OutOfRange(field) => ("L4", "OutOfRange", Some(field)),
            Cause::TooManyLines => ("L5", "TooManyLines", None),
        };
        CauseRow { code, name, field }
    }
}

impl fmt::Display for Cause {
    ghost use Rattle.std.specs.Prelude.{Some};
    ghost use Rattle.tl_record.specs.Messages.{cause_text};

    ghost output = { λ cause. Some (cause_text cause) };

    fn fmt<W: fmt::Write>(&self, f: &mut fmt::Formatter<W>) -> fmt::Result {
        let CauseRow { code, name, field } = self.row();
        write!(f, "{code} {name}")?;
        match field {
            Some(field) => write!(f, " {field}"),
            None => Ok(()),
        }
    }
}

/// As it is printed.
impl fmt::Debug for Cause {
    fn fmt<W: fmt::Write>(&self, f: &mut fmt::Formatter<W>) -> fmt::Result {
        fmt::Display::fmt(self, f)
    }
}

/// Why a reader gives no more records.
#[derive(Clone, Copy, PartialEq, Eq)]
pub enum ReadStop {
    /// This line, counted from 1, is the first that is refused.
    Refused { line: u64, cause: Cause },
    /// A read of the source failed.
    Device,
}

impl fmt::Display for ReadStop {
    ghost use Rattle.std.specs.Prelude.{Some};
    ghost use Rattle.tl_record.specs.Messages.{read_stop_text};

    ghost output = { λ stop. Some (read_stop_text stop) };

    fn fmt<W: fmt::Write>(&self, f: &mut fmt::Formatter<W>) -> fmt::Result {
        match self {
            ReadStop::Refused { line, cause } => {
                let refusal = Refusal {
                    line: *line,
                    cause: *cause,
                };
                fmt::Display::fmt(&refusal, f)
            }
            ReadStop::Device => f.write_str("stopped Device"),
        }
    }
}

/// As it is printed.
impl fmt::Debug for ReadStop {
    fn fmt<W: fmt::Write>(&self, f: &mut fmt::Formatter<W>) -> fmt::Result {
        fmt::Display::fmt(self, f)
    }
}
