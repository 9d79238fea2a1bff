//! Who takes the rows of an answer.

ghost use Rattle.std.specs.Prelude.{◌++◌, ◌∷◌, [], List, map, OnOk, OnErr};
ghost use Rattle.grouping_model.specs.Aggregates.{Outcome};
ghost use Rattle.agg_protocol.specs.Results.{outcome_of};

use agg_protocol::ResultValue;
use having_filter::AnswerRows;
use std::alloc::AllocError;

/// Who takes the rows of an answer, one after another: a list of rows, or a text that grows by each row.
pub trait RowSink {
    // Whether a sink became another by taking these rows, in their order.
    ghost took: { Self → Self → List (List Outcome) → Type 0 };

    // Whether a sink became another by refusing a row.
    ghost refused: { Self → Self → Type 0 };

    /// Takes a row. The only error is a failed allocation, which refuses the row: no part of it stands before rows that the sink takes
    /// later. A sink that can't undo what it began takes no row from then on.
    fn push_row(&mut self, row: &[ResultValue<'_>]) -> Result<(), AllocError>
        ensures taken { OnOk result (took self.old self.new (map outcome_of row.now ∷ [])) }
        ensures untaken { OnErr result (refused self.old self.new) };

    // No rows change nothing, and rows may be taken in two parts.
    ghost none: { (sink : Self) → took sink sink [] };

    ghost both: { (old between new : Self) (first rest : List (List Outcome)) → took old between first →
        took between new rest → took old new (first ++ rest) };

    // A row that was refused leaves no trace: what the sink takes later, it takes as if that row had not come.
    ghost untraced: { (old new later : Self) (next : List Outcome) (rows : List (List Outcome)) → refused old new →
        took new later (next ∷ rows) → took old later (next ∷ rows) };
}

impl RowSink for AnswerRows {
    ghost use Rattle.std.specs.Prelude.{◌≡◌, ◌++◌, ◌∷◌};
    ghost use Rattle.std.proofs.Common.{sym, ◌∙◌, ap, append-nil, append_assoc};

    ghost took = { λ old new rows. new ≡ old ++ rows };

    ghost refused = { λ old new. new ≡ old };

    fn push_row(&mut self, row: &[ResultValue<'_>]) -> Result<(), AllocError> {
        self.push(row)
    }

    ghost none = { λ rows. sym (append-nil rows) };

    ghost both = { λ old between new first rest one two.
        two ∙ ap (λ rows. rows ++ rest) one ∙ append_assoc old first rest };

    ghost untraced = { λ old new later next rows same taken. taken ∙ ap (λ those. those ++ (next ∷ rows)) same };
}
