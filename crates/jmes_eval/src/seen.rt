ghost use Rattle.std.specs.Prelude.{◌≡◌, IfOk};
ghost use Rattle.json_doc.specs.declared.doc.Doc.{Doc};
ghost use Rattle.texts.specs.Calls.{Answers};
ghost use Rattle.jmes_eval.specs.Answers.{Answer, is_memory};
ghost use Rattle.jmes_eval.specs.Inside.{seen_doc};

use crate::QueryFault;
use json_doc::{Doc, OutOfMemory, copy};
use std::alloc::Global;

/// A value that a query has come to: a place in a document that is only looked at, or a document that
/// was made.
#[derive(Drop)]
pub(crate) enum Seen<'a> {
    At(&'a Doc),
    Made(Doc),
}

impl Seen<'_> {
    /// The value to look at.
    pub(crate) fn doc(&self) -> &Doc
        ensures { result.now ≡ seen_doc self.now }
    {
        match self {
            Seen::At(place) => place,
            Seen::Made(doc) => doc,
        }
    }

    /// The value as a document of its own.
    pub(crate) fn into_doc(self, alloc: Global) -> Result<Doc, OutOfMemory>
        ensures { IfOk result (λ doc. doc ≡ seen_doc self.entry) }
    {
        match self {
            Seen::At(place) => copy(alloc, place),
            Seen::Made(doc) => Ok(doc),
        }
    }
}

/// A document that was made.
pub(crate) fn made<'a>(doc: Result<Doc, QueryFault>) -> Result<Seen<'a>, QueryFault>
    ensures { (wanted : Answer Doc) → Answers is_memory (λ x. x) doc wanted → Answers is_memory seen_doc result wanted }
{
    match doc {
        Ok(doc) => Ok(Seen::Made(doc)),
        Err(fault) => Err(fault),
    }
}
