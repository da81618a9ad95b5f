//! Laws of signing, as functions that do nothing.
ghost use Rattle.sigv4.specs.OneForm.{HasOneSignedForm};

/// A message has at most one signed form for a signer at a moment.
pub fn has_one_signed_form()
    ensures { HasOneSignedForm }
{}
