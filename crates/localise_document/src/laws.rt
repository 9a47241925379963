//! Laws of documents, for contracts that cite them. Each function does nothing: its contract is
//! the law.
ghost use Rattle.std.specs.Prelude.{◌≡◌, ◌↔◌, Ok};
ghost use Rattle.localise_texts.specs.declared.request.Request.{Request};
ghost use Rattle.serde_json.specs.Data.{Data};
ghost use Rattle.localise_document.specs.Contents.{Contents};
ghost use Rattle.localise_document.specs.Document.{document_of};
ghost use Rattle.localise_document.specs.Facts.{IsDocumentValue, IsRequest};
ghost use Rattle.localise_document.specs.Requests.{request_of};

/// A value is a document that says this exactly where its members do.
pub fn document_is_its_members()
    ensures { (value : Data) (d : Contents) →
        (document_of value ≡ Ok d) ↔ IsDocumentValue value d }
{}

/// A value is a request that says this exactly where its members do.
pub fn request_is_its_members()
    ensures { (value : Data) (q : Request) →
        (request_of value ≡ Ok q) ↔ IsRequest value q }
{}
