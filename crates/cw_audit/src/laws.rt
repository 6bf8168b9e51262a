//! The law of what a report lists.
ghost use Rattle.std.specs.Prelude.{◌≡◌, ◌≤◌, ℕ, List, IsSome};
ghost use Rattle.cw_bytes.specs.Spelling.{IsTid};
ghost use Rattle.cw_config.specs.declared.records.ConfigRecord.{ConfigRecord};
ghost use Rattle.cw_config.specs.View.{generation_of};
ghost use Rattle.cw_keys.specs.Parts.{part_text};
ghost use Rattle.cw_txn.specs.declared.entry.Entry.{Entry};
ghost use Rattle.cw_txn.specs.Legal.{epoch_of};
ghost use Rattle.cw_types.specs.declared.ids.Tid.{Tid};
ghost use Rattle.cw_types.specs.Text.{tid_text};
ghost use Rattle.cw_audit.specs.Listed.{IsNamedIn, connectors_in, ids_in, parts_in};
ghost use Rattle.cw_audit.specs.Rising.{ListsJust};

/// A report lists just the ids with an epoch of at least 1, the parts of connectors that a commit or a set names, and
/// the connectors with a commit record, each list rising by its texts, each text once.
pub fn reports_list_just_these()
    ensures ids { (group : List ℕ) (entries : List Entry) →
        ListsJust (tid_text group) (λ tid. 1 ≤ epoch_of tid entries) (ids_in group entries) }
    ensures parts { (entries : List Entry) → ListsJust part_text (IsNamedIn entries) (parts_in entries) }
    ensures connectors { (records : List ConfigRecord) →
        ListsJust (λ name. name) (λ name. IsSome (generation_of name records)) (connectors_in records) }
{}

/// The texts of a group's ids tell them apart, so that a report leaves none of them out for the text of another one.
pub fn texts_tell_ids_apart()
    ensures { (group : List ℕ) (a b : Tid) → IsTid a → IsTid b → tid_text group a ≡ tid_text group b → a ≡ b }
{}
