//! How operations are signed.
ghost use Rattle.std.specs.Prelude.{◌≡◌};
ghost use Rattle.std.specs.Option.{option_copied};
ghost use Rattle.texts.specs.Calls.{Answers};
ghost use Rattle.model_files.specs.Faults.{is_memory};
ghost use Rattle.service_model.specs.Operations.{is_no_auth, has_v4, is_other_kind, is_unsigned, is_signed_otherwise, signing_of};

use crate::metadata::{is_among, is_text};
use json_doc::{Doc, List, Pairs, Text};
use model_files::{ModelFault, maybe_text, maybe_texts};
use std::alloc::Global;

/// How an operation is signed.
#[derive(Clone, Copy)]
pub struct Signing {
    pub unsigned: bool,
    /// Whether it is in another way than by version 4.
    pub is_other: bool,
}

/// How an operation is signed: by `authtype` and `auth`, and as the service says.
#[tactic(auto, unfolding(crate::specs::Operations::signing_of))]
pub fn read_signing(
    alloc: Global,
    signs_by_v4: bool,
    fields: &Pairs<Doc>,
) -> Result<Signing, ModelFault>
    ensures { Answers is_memory (λ x. x) result (signing_of signs_by_v4 fields.now) }
{
    let kind = maybe_text(alloc, fields, "authtype")?;
    let schemes = maybe_texts(alloc, fields, "auth")?;
    let schemes = schemes.as_ref();
    Ok(Signing {
        unsigned: is_unsigned(kind, schemes),
        is_other: is_signed_otherwise(signs_by_v4, kind, schemes),
    })
}

fn is_unsigned(kind: Option<&Text>, schemes: Option<&List<Text>>) -> bool
    ensures { result ≡ is_unsigned (option_copied kind.entry) (option_copied schemes.entry) }
{
    is_text(kind, "none") || is_no_auth(schemes)
}

/// Whether an operation is signed in another way than by version 4.
fn is_signed_otherwise(signs_by_v4: bool, kind: Option<&Text>, schemes: Option<&List<Text>>) -> bool
    ensures { result ≡ is_signed_otherwise signs_by_v4 (option_copied kind.entry) (option_copied schemes.entry) }
{
    !(is_unsigned(kind, schemes) || signs_by_v4 && has_v4(schemes)) || is_other_kind(kind)
}

/// Whether there is an `authtype`, and it is another than none and version 4.
fn is_other_kind(kind: Option<&Text>) -> bool
    ensures { result ≡ is_other_kind (option_copied kind.entry) }
{
    match kind {
        Some(kind) => !(kind.is("none") || kind.is("v4")),
        None => false,
    }
}

/// Whether version 4 is among the schemes, where there are some.
fn has_v4(schemes: Option<&List<Text>>) -> bool
    ensures { result ≡ has_v4 (option_copied schemes.entry) }
{
    match schemes {
        Some(schemes) => is_among(schemes, "aws.auth#sigv4"),
        None => true,
    }
}

/// Whether the one scheme is that of no signature.
fn is_no_auth(schemes: Option<&List<Text>>) -> bool
    ensures { result ≡ is_no_auth (option_copied schemes.entry) }
{
    match schemes {
        Some(schemes) => schemes.len() == 1 && is_among(schemes, "smithy.api#noAuth"),
        None => false,
    }
}
