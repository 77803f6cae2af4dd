//! The texts of certificates.

/// The certificate of a square of one chain, `examples/square.RT*`.
pub const SQUARE: &str =
    "TIGERCERT 1\nC 1 4 1 1\nT 1\nL 10 10 30 30 4\nS 0\nS 1\nS 2\nS 3\nN 1\nR 2\nD 0\nD 1\nW 2\nK 1\nD 0\nK 1\nD 1\nEND\n";

/// That in version 2.
pub const SQUARE_2: &str =
    "TIGERCERT 2\nC 1 4 1 1\nT 1\nL 10 10 30 30 4\nS 0\nS 1\nS 2\nS 3\nN 1\nR 2\nD 0\nD 1\nW 2\nK 1\nD 0\nK 1\nD 1\nEND\n";

/// A tree with three children, in version 2, without rounds and walks.
pub const THREE_CHILDREN: &str =
    "TIGERCERT 2\nC 3 3 4 4294967295\nT 4\nB -2147483648 -1 2147483647 0 3\nL 10 10 30 30 1\nS 0\nL 10 10 30 30 1\nS 1\nL 10 10 30 30 1\nS 2\nN 0\nW 0\nEND\n";
