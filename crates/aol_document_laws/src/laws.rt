//! Laws of documents: what is written is read again.

ghost use Rattle.std.specs.Prelude.{◌≡◌, true, Ok};
ghost use Rattle.serde_json.specs.Data.{Data};
ghost use Rattle.aol_model_types.specs.declared.document.Document.{Document};
ghost use Rattle.aol_model_types.specs.Reading.{document_in};
ghost use Rattle.aol_model_types.specs.Trees.{is_tree};
ghost use Rattle.aol_model_types.specs.Writing.{document_tree};

/// A document that was read is written, in version 2, as a tree that is read as the same document.
pub fn documents_are_read_again()
    ensures { (t : Data) (doc : Document) → is_tree t ≡ true → document_in t ≡ Ok doc → document_in (document_tree doc.model doc.job) ≡ Ok doc }
{}
