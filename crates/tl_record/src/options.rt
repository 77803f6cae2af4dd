//! What is asked of a county.

/// What is asked of a county: which columns of type I are read, and what has to hold of its map beyond what every sound map keeps. The
/// same choice for every call that reads records.
#[derive(Clone, Copy, Default)]
pub struct Options {
    /// Whether the zero-cell ids are read: TZIDS in columns 21 to 30 and TZIDE in 31 to 40. By default those columns
    /// may hold any bytes. Where they are read they have to agree.
    pub zero_cells: bool,
    /// Whether type I lines are those of the files that the Census Bureau released: FILE, which isn't read, in columns
    /// 6 to 10, and TLID in 11 to 20. By default TLID is in columns 6 to 15, as in types 1 and 2.
    pub released: bool,
    /// Whether each place has to lie in one polygon or outside of all, and each side of each chain to name what lies there. No
    /// column is read for it.
    pub faces: bool,
    /// Whether chains that two counties tell, each with its own polygon on its side, are one chain with both. Lines of types 7 and 8 are
    /// then passed over: a LAND is a county's own number.
    pub join: bool,
    /// Whether at least one record of each of the types 1, I and P has to be read. No column is read for it.
    pub complete: bool,
}

/// The default of [`Options`]: nothing is chosen.
pub const PLAIN: Options = Options {
    zero_cells: false,
    released: false,
    faces: false,
    join: false,
    complete: false,
};
