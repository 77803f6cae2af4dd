//! What holds of the definitions alone. Each law is a function that does nothing: its contract is the law.

ghost use Rattle.std.specs.Prelude.{◌≡◌, ℕ, List, [], ◌++◌};
ghost use Rattle.tl_cert.specs.Certificates.{TheCertificate, IsCertificate};
ghost use Rattle.tl_cert.specs.Text.{certificate_text};

/// A text is that of one certificate at most: two certificates with one text are the same.
pub fn a_text_has_one_certificate()
    ensures { (c d : TheCertificate) → IsCertificate c → IsCertificate d →
        certificate_text c ≡ certificate_text d → c ≡ d }
{}

/// No certificate's text begins another's: where the text of one goes on to be that of another, nothing is added, and
/// the two are the same.
pub fn no_text_begins_another()
    ensures { (c d : TheCertificate) (more : List ℕ) → IsCertificate c → IsCertificate d →
        certificate_text c ++ more ≡ certificate_text d → (c ≡ d) × (more ≡ []) }
{}
