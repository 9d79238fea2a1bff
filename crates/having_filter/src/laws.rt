//! Laws of checked queries.

ghost use Rattle.query_checks.specs.Checks.{Checked};
ghost use Rattle.having_filter.specs.Kept.{IsCheckedQuery};
ghost use Rattle.having_filter.specs.Fitting.{HasFittingConditions};

/// In a checked query every comparison has two operands of one kind, or null on a side. Every operand of NOT, AND, OR and of an IS test but
/// IS NULL is a truth value or null. So is each whole condition. WHERE and FILTER read columns of the table alone; HAVING and the items
/// read columns of GROUP BY and aggregates of the query. So it never matters what logic and order of values would give other operands.
pub fn conditions_of_checked_queries()
    ensures { (q : Checked) → IsCheckedQuery q → HasFittingConditions q }
{}
